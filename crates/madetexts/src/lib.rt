// Made test texts (document 02, R-14): a lent buffer is filled with symbols below k, from a seed.
#![tactic(auto)]

ghost use Rattle.std.specs.Prelude.{◌≡◌, ◌≤◌, length};
ghost use Rattle.madetexts.specs.Values.{next_value, made_text};
ghost use Rattle.madetexts.specs.Making.{Makes};

use base::Refusal;

// The value after x of Marsaglia's 64-bit xorshift.
fn next_value(x: u64) -> u64
    ensures { result ≡ next_value x }
{
    let a = x ^ (x << 13);
    let b = a ^ (a >> 7);
    b ^ (b << 17)
}

// Fills the buffer with the symbols of the values after the seed.
fn fill(k: usize, seed: u64, text: &mut [u8])
    requires { (1 ≤ k) × (k ≤ 16) }
    ensures { text.new ≡ made_text k seed (length text.old) }
{
    let mut x = seed;
    for byte in text.iter_mut() {
        let next = next_value(x);
        *byte = (next % k as u64) as u8;
        x = next;
    }
}

// The made text of k symbols fills the buffer; where the call is refused, with 4 or 41, the buffer
// stays as it is.
pub fn make_text(k: usize, seed: u64, text: &mut [u8]) -> Result<(), Refusal>
    ensures { Makes k seed text.old result text.new }
{
    if k < 1 {
        return Err(Refusal::SymbolCount);
    }
    if limits::SYMBOLS < k {
        return Err(Refusal::SymbolCount);
    }
    if seed == 0 {
        return Err(Refusal::NoSeed);
    }
    fill(k, seed, text);
    Ok(())
}
