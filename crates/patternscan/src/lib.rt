// The bytes of a pattern: what each byte is, whether they are a pattern at all, and how many
// letters they have.
#![tactic(auto)]

ghost use Rattle.std.specs.Prelude.{◌≡◌, ◌<◌, ◌≤◌, length};
ghost use Rattle.patternscan.specs.Signs.{sign_of, symbols_of, letters_in};
ghost use Rattle.patternscan.specs.Scanning.{within, scan_means, step as step_of, grammatical as grammaticalOf};

// What a byte is in a pattern; a letter with its symbol.
#[derive(Clone, Copy)]
pub enum Sign {
    Letter(u8),
    Bar,
    Opens,
    Closes,
    Star,
    Foreign,
}

pub fn sign_of(b: u8) -> Sign
    ensures { result ≡ sign_of b }
{
    if b < b'a' {
        if b == b'(' {
            return Sign::Opens;
        }
        if b == b')' {
            return Sign::Closes;
        }
        if b == b'*' {
            return Sign::Star;
        }
        return Sign::Foreign;
    }
    if b <= b'p' {
        return Sign::Letter(b - b'a');
    }
    if b == b'|' {
        return Sign::Bar;
    }
    Sign::Foreign
}

// One sign more, where so many brackets are open, and a star may follow or not: the same after it, or
// none where the bytes are no pattern.
fn stepped(depth: usize, starry: bool, sign: Sign) -> Option<(usize, bool)>
    requires { depth < 18446744073709551615 }
    ensures { scan_means result ≡ step_of sign (within depth starry) }
{
    match sign {
        Sign::Letter(_) => Some((depth, true)),
        Sign::Bar => Some((depth, false)),
        Sign::Opens => Some((depth + 1, false)),
        Sign::Closes => {
            if depth == 0 {
                return None;
            }
            Some((depth - 1, true))
        }
        Sign::Star => {
            if starry {
                return Some((depth, true));
            }
            None
        }
        Sign::Foreign => None,
    }
}

// Whether the bytes are a pattern.
pub fn grammatical(bytes: &[u8]) -> bool
    ensures { result ≡ grammaticalOf bytes.now }
{
    let mut depth: usize = 0;
    let mut starry = false;
    for byte in bytes {
        let sign = sign_of(*byte);
        let Some((d, s)) = stepped(depth, starry, sign) else {
            return false;
        };
        depth = d;
        starry = s;
    }
    depth == 0
}

// 1 for a letter.
fn counted(sign: Sign) -> usize
    ensures value { result ≡ length (symbols_of sign) }
    ensures upper_bound { result ≤ 1 }
{
    match sign {
        Sign::Letter(_) => 1,
        Sign::Bar => 0,
        Sign::Opens => 0,
        Sign::Closes => 0,
        Sign::Star => 0,
        Sign::Foreign => 0,
    }
}

// How many of the bytes are letters.
pub fn count_letters(bytes: &[u8]) -> usize
    ensures { result ≡ length (letters_in bytes.now) }
{
    let mut n: usize = 0;
    for byte in bytes {
        let sign = sign_of(*byte);
        n += counted(sign);
    }
    n
}
