// Writes bytes and numbers into a lent buffer, one after the other. Each function answers where its
// piece ends.
#![tactic(auto)]

ghost use Rattle.std.specs.Prelude.{◌≡◌, [], ◌∷◌, ◌+◌, ◌≤◌, ◌<◌, length};
ghost use Rattle.text.specs.Numerals.{decimal, hex_digit, hex};
ghost use Rattle.text.specs.Writing.{Wrote};

pub fn put_byte(out: &mut [u8], at: usize, byte: u8) -> usize
    requires { at < length out.old }
    ensures { Wrote out.old at (byte ∷ []) out.new result }
{
    out[at] = byte;
    at + 1
}

pub fn put_bytes(out: &mut [u8], at: usize, bytes: &[u8]) -> usize
    requires { at + length bytes.now ≤ length out.old }
    ensures { Wrote out.old at bytes.now out.new result }
{
    for (i, byte) in bytes.iter().enumerate() {
        out[at + i] = *byte;
    }
    at + bytes.len()
}

// The decimal digits of a number.
pub fn put_decimal(out: &mut [u8], at: usize, n: u64) -> usize
    requires { at + length (decimal n) ≤ length out.old }
    ensures { Wrote out.old at (decimal n) out.new result }
{
    if n < 10 {
        return put_byte(out, at, 48 + (n as u8));
    }
    let last = put_decimal(out, at, n / 10);
    put_byte(out, last, 48 + ((n % 10) as u8))
}

fn hex_digit(d: u8) -> u8
    requires { d < 16 }
    ensures { result ≡ hex_digit d }
{
    if d < 10 { 48 + d } else { 55 + d }
}

// So many upper-case hex digits of a number, the highest first.
pub fn put_hex(out: &mut [u8], at: usize, width: usize, n: u64) -> usize
    requires { at + width ≤ length out.old }
    ensures { Wrote out.old at (hex width n) out.new result }
{
    if width == 0 {
        return at;
    }
    let last = put_hex(out, at, width - 1, n / 16);
    put_byte(out, last, hex_digit((n % 16) as u8))
}
