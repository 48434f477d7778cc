// The digest of a built rule, by which a value that was made with one rule is told from one that
// was made with another. A guard against mistakes, not against attackers.
#![tactic(auto)]

ghost use Rattle.std.specs.Prelude.{◌≡◌, ℕ, List};
ghost use Rattle.std.specs.List.{AllZip};
ghost use Rattle.digests.specs.Digests.{half_step, digest_step, digest_from, digest_of};

use build::Built;

// The digest with half a number more.
fn with_half(digest: u64, half: u64) -> u64
    ensures { result ≡ half_step digest half }
{
    let product = std::num::wrapping_add_u64(digest << 17, digest);
    let sum = std::num::wrapping_add_u64(product, half);
    std::num::wrapping_add_u64(sum, sum >> 23)
}

// The digest with one number more.
fn with_number(digest: u64, number: u64) -> u64
    ensures { result ≡ digest_step digest number }
{
    let low = with_half(digest, number % 65536);
    with_half(low, number / 65536)
}

// The digest with the numbers of a slice.
fn with_numbers<T: Copy + Into<u64>>(digest: u64, cells: &[T]) -> u64
    ensures { (numbers : List ℕ) × AllZip T.converts cells.now numbers × (result ≡ digest_from digest numbers) }
{
    let mut next = digest;
    for &cell in cells {
        next = with_number(next, cell.into());
    }
    next
}

// The digest of the numbers of states and symbols and of the two masks.
fn head(n: u8, k: u8, initials: u32, finals: u32) -> u64
    ensures { result ≡ digest_step (digest_step (digest_step (digest_step 0 n) k) initials) finals }
{
    let states = with_number(0, n as u64);
    let symbols = with_number(states, k as u64);
    let first = with_number(symbols, initials as u64);
    with_number(first, finals as u64)
}

// The digest of a built rule, which may be any value: more than 512 sets count as 512.
pub fn digest(built: Built) -> u64
    ensures { result ≡ digest_of built }
{
    let start = head(built.n, built.k, built.initials, built.finals);
    let own = with_numbers(start, &built.delegates);
    let singles = with_numbers(own, &built.singles);
    let counted = with_number(singles, built.setcount as u64);
    let count = (built.setcount as usize).min(limits::SETS);
    let sets = with_numbers(counted, &built.sets[..count]);
    with_numbers(sets, &built.next[..count * limits::SYMBOLS])
}
