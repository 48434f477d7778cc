// Reads the fields of a line that records a call.
#![tactic(auto)]

ghost use Rattle.std.specs.Prelude.{◌≡◌, true, length, take};
ghost use Rattle.text.specs.Writing.{Wrote};
ghost use Rattle.base.specs.Options.{option_of};
ghost use Rattle.fields.specs.Numbers.{parse_number};
ghost use Rattle.fields.specs.Bytes.{hex_value, all_hex, pairs, Took};

// A larger value has no room for a digit more.
const TENTH: u64 = limits::NUMBER / 10;

// The number that a field says, which is 1 to 20 decimal digits with a value that 64 bits hold.
pub fn read_number(field: &[u8]) -> Option<u64>
    ensures { option_of result ≡ parse_number field.now }
{
    if field.len() == 0 {
        return None;
    }
    if limits::DIGITS < field.len() {
        return None;
    }
    let mut value: u64 = 0;
    for &c in field {
        if c < 48 {
            return None;
        }
        if 57 < c {
            return None;
        }
        let digit = (c - 48) as u64;
        if TENTH < value {
            return None;
        }
        if limits::NUMBER - 10 * value < digit {
            return None;
        }
        value = 10 * value + digit;
    }
    Some(value)
}

// The value of a hex digit of either case; 16 for any other byte.
pub fn hex_value(c: u8) -> u8
    ensures { result ≡ hex_value c }
{
    if c < 48 {
        return 16;
    }
    if c < 58 {
        return c - 48;
    }
    if c < 65 {
        return 16;
    }
    if c < 71 {
        return c - 55;
    }
    if c < 97 {
        return 16;
    }
    if c < 103 {
        return c - 87;
    }
    16
}

// Whether each byte is a hex digit.
pub fn all_hex(field: &[u8]) -> bool
    ensures { result ≡ all_hex field.now }
{
    for byte in field {
        if 16 <= hex_value(*byte) {
            return false;
        }
    }
    true
}

// The bytes that pairs of hex digits stand for, as many as fit: how many those are.
fn put_pairs(field: &[u8], out: &mut [u8]) -> usize
    requires { all_hex field.now ≡ true }
    ensures { Wrote out.old 0 (take (length out.old) (pairs field.now)) out.new result }
{
    for i in 0..out.len() {
        if field.len() - 2 * i < 2 {
            return i;
        }
        let high = hex_value(field[2 * i]);
        let low = hex_value(field[2 * i + 1]);
        out[i] = 16 * high + low;
    }
    out.len()
}

// A field of one or more pairs of hex digits, or `-` for no bytes. The bytes that it says are put
// into the buffer, as many as fit, and counted; what lies past them stays, and so does the whole of
// it where the field is malformed.
pub fn read_bytes(field: &[u8], out: &mut [u8]) -> Option<usize>
    ensures { Took field.now out.old (option_of result) out.new }
{
    if field.len() == 1 {
        if field[0] == 45 {
            return Some(0);
        }
        return None;
    }
    if field.len() == 0 {
        return None;
    }
    if field.len() % 2 == 1 {
        return None;
    }
    if all_hex(field) {
        Some(put_pairs(field, out))
    } else {
        None
    }
}
