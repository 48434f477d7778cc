// Bytes as hex digits: a field that is read byte by byte, of any length, and one that is written.
#![tactic(auto)]

ghost use Rattle.std.specs.Prelude.{◌≡◌, ◌+◌, ◌*◌, ◌≤◌, length};
ghost use Rattle.base.specs.Options.{option_of};
ghost use Rattle.text.specs.Writing.{Wrote};
ghost use Rattle.fields.specs.Claims.{digits_of};
ghost use Rattle.hexfields.specs.Reading.{pair_of, read_of, end_of};

// What of a field has been read: nothing, the `-` for no bytes, pairs of digits, pairs and a digit
// more with its value; or no field begins so. Of the pairs, as many bytes as it has room for stand
// at the start of a buffer; the number beside them says how many those are.
#[derive(Clone, Copy)]
pub enum Part {
    Nothing,
    Dash,
    Even(usize),
    Odd(usize, u8),
    Stray,
}

// A pair of digits, if there is room for its byte.
fn put_pair(buffer: &mut [u8], at: usize, high: u8, low: u8) -> usize
    ensures { record { end = result; buffer = buffer.new } ≡ pair_of buffer.old at high low }
{
    if at < buffer.len() {
        buffer[at] = 16 * (high % 16) + low % 16;
        return at + 1;
    }
    at
}

// One byte more of the field.
pub fn read_on(buffer: &mut [u8], part: Part, c: u8) -> Part
    ensures { record { part = result; buffer = buffer.new } ≡ read_of buffer.old part c }
{
    let value = fields::hex_value(c);
    match part {
        Part::Nothing => {
            if value < 16 {
                return Part::Odd(0, value);
            }
            if c == b'-' {
                return Part::Dash;
            }
            Part::Stray
        }
        Part::Even(n) => {
            if value < 16 {
                return Part::Odd(n, value);
            }
            Part::Stray
        }
        Part::Odd(n, high) => {
            if value < 16 {
                return Part::Even(put_pair(buffer, n, high, value));
            }
            Part::Stray
        }
        Part::Dash => Part::Stray,
        Part::Stray => Part::Stray,
    }
}

// The field ends: how many bytes stand in the buffer, if it is one.
pub fn end(part: Part) -> Option<usize>
    ensures { option_of result ≡ end_of part }
{
    match part {
        Part::Dash => Some(0),
        Part::Even(n) => Some(n),
        Part::Nothing | Part::Odd(_, _) | Part::Stray => None,
    }
}

// Two hex digits for each byte.
pub fn put_digits(out: &mut [u8], at: usize, bytes: &[u8]) -> usize
    requires { at + 2 * length bytes.now ≤ length out.old }
    ensures { Wrote out.old at (digits_of bytes.now) out.new result }
{
    let mut end = at;
    for byte in bytes {
        end = text::put_hex(out, end, 2, *byte as u64);
    }
    end
}
