// A line of any length that comes in pieces: a buffer has its beginning, a value what must be known
// of the rest.
#![tactic(auto)]

ghost use Rattle.std.specs.Prelude.{◌≡◌, ◌&&◌, ◌≤◌, length, take};
ghost use Rattle.fields.specs.Bytes.{all_hex};
ghost use Rattle.longlines.specs.Holding.{line_begin, odd_with, held_after, buffer_after, standing, seen_of};

// How many bytes of a line the buffer has; whether the bytes that it does not have are hex
// digits; whether their number is odd.
#[derive(Clone, Copy)]
pub struct Held {
    pub length: usize,
    pub hex: bool,
    pub odd: bool,
}

// What stands for a line: so many bytes at the start of the buffer, and whether the others are hex
// digits.
#[derive(Clone, Copy)]
pub struct Seen {
    pub length: usize,
    pub hex: bool,
}

// The beginning of a line.
pub fn nothing() -> Held
    ensures { result ≡ line_begin }
{
    Held {
        length: 0,
        hex: true,
        odd: false,
    }
}

// Whether the number of bytes is odd with so many more.
fn odd_with(odd: bool, more: usize) -> bool
    ensures { result ≡ odd_with odd more }
{
    if more % 2 == 1 {
        return !odd;
    }
    odd
}

// Whether all are hex digits with these.
fn hex_with(hex: bool, more: &[u8]) -> bool
    ensures { result ≡ hex && all_hex more.now }
{
    if hex {
        return fields::all_hex(more);
    }
    false
}

// The line goes on with the piece.
pub fn hold(buffer: &mut [u8], held: Held, piece: &[u8]) -> Held
    ensures value { result ≡ held_after buffer.old held piece.now }
    ensures buffer { buffer.new ≡ buffer_after buffer.old held piece.now }
{
    let at = held.length.min(buffer.len());
    let fits = piece.len().min(buffer.len() - at);
    let length = text::put_bytes(buffer, at, &piece[..fits]);
    let hex = hex_with(held.hex, &piece[fits..]);
    let odd = odd_with(held.odd, piece.len() - fits);
    Held { length, hex, odd }
}

// How much of what the buffer has stands for the line: all of it, or one byte less, so that the
// bytes left out are even in number.
fn stands(length: usize, odd: bool) -> usize
    ensures { result ≡ standing odd length }
{
    if odd {
        if 0 < length {
            return length - 1;
        }
        return 0;
    }
    length
}

// How many bytes of the buffer stand for the line that is held, and whether those that they leave
// out are hex digits.
pub fn look(buffer: &[u8], held: Held) -> Seen
    ensures value { result ≡ seen_of buffer.now held }
    ensures within { (result.length ≤ length buffer.now) × (result.length ≡ length (take result.length buffer.now)) }
{
    let kept = held.length.min(buffer.len());
    let length = stands(kept, held.odd);
    let hex = hex_with(held.hex, &buffer[length..kept]);
    Seen { length, hex }
}
