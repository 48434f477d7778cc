// The lines of maketext: what a line means, and the line that answers it.
#![tactic(auto)]

ghost use Rattle.std.specs.Prelude.{◌≡◌, ◌+◌, ◌*◌, ◌≤◌, length};
ghost use Rattle.limits.specs.Limits.{longest_chunk};
ghost use Rattle.text.specs.Writing.{Wrote};
ghost use Rattle.fields.specs.Numbers.{parse_number};
ghost use Rattle.fields.specs.Claims.{field_of};
ghost use Rattle.maketextlines.specs.Lines.{up_to_most, makes_by, line_in, line_means};
ghost use Rattle.maketextlines.specs.Answers.{most_answer, made_answer, answer_to};

// The longest line of the grammar: three numbers, and a space between each two.
pub const LINE: usize = 3 * limits::DIGITS + 2;

// Room for an answer: two hex digits for each byte of the longest text, and a line feed.
pub const ANSWER: usize = 2 * limits::CHUNK + 1;

// The greatest length of a text.
const TEXT: u64 = limits::CHUNK as u64;

// What a line says: k, the seed and the length of a text to make.
#[derive(Clone, Copy)]
pub struct TextLine {
    pub k: usize,
    pub seed: u64,
    pub length: usize,
}

// The line of three fields; none where it is malformed.
fn numbers(k: &[u8], seed: &[u8], length: &[u8]) -> Option<TextLine>
    ensures { line_means result
        ≡ makes_by (parse_number k.now) (parse_number seed.now)
        (up_to_most longest_chunk (parse_number length.now)) }
{
    let symbols = fields::read_number(k)?;
    let from = fields::read_number(seed)?;
    let n = fields::read_number(length)?;
    if TEXT < n {
        return None;
    }
    Some(TextLine {
        k: symbols as usize,
        seed: from,
        length: n as usize,
    })
}

// Takes a line apart at its first two spaces.
fn parse(line: &[u8]) -> Option<TextLine>
    ensures { line_means result ≡ line_in line.now }
{
    let first = lines::find(line, 0, b' ');
    if line.len() <= first {
        return None;
    }
    let from = first + 1;
    let second = lines::find(line, from, b' ');
    if line.len() <= second {
        return None;
    }
    let end = second + 1;
    numbers(&line[..first], &line[from..second], &line[end..])
}

// Bytes in hex digits, `-` for none.
fn put_field(out: &mut [u8], at: usize, bytes: &[u8]) -> usize
    requires { at + (2 * length bytes.now + 1) ≤ length out.old }
    ensures { Wrote out.old at (field_of bytes.now) out.new result }
{
    if bytes.len() == 0 {
        return text::put_byte(out, at, b'-');
    }
    hexfields::put_digits(out, at, bytes)
}

// Makes a text in the buffer that is lent for it, and writes what comes of it.
fn put_made(k: usize, seed: u64, text: &mut [u8], out: &mut [u8], at: usize) -> usize
    requires { (length text.old ≤ longest_chunk) × (at + most_answer ≤ length out.old) }
    ensures { Wrote out.old at (made_answer k seed (length text.old))
        out.new result }
{
    match madetexts::make_text(k, seed, text) {
        Ok(()) => {
            let end = put_field(out, at, text);
            text::put_byte(out, end, b'\n')
        }
        Err(refusal) => answers::put_refused(out, at, refusal.number()),
    }
}

// The answer to a line. The buffer is for the text that is made.
pub fn put_answer(line: &[u8], buffer: &mut [u8], out: &mut [u8], at: usize) -> usize
    requires { (longest_chunk ≤ length buffer.old) × (at + most_answer ≤ length out.old) }
    ensures { Wrote out.old at (answer_to line.now) out.new result }
{
    let Some(made) = parse(line) else {
        return answers::put_malformed(out, at);
    };
    put_made(made.k, made.seed, &mut buffer[..made.length], out, at)
}
