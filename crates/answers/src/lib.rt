// The lines that every program answers with: a word and numbers, a refusal, that a line is
// malformed, and that it is skipped.
#![tactic(auto)]

ghost use Rattle.std.specs.Prelude.{◌+◌, ◌≤◌, length};
ghost use Rattle.text.specs.Writing.{Wrote};
ghost use Rattle.answers.specs.Answers.{line_of, refused_text, malformed_text, skipped_text};

// A word, and numbers, each behind a space.
pub fn put_line(out: &mut [u8], at: usize, word: &[u8], numbers: &[u64]) -> usize
    requires { at + length (line_of word.now numbers.now) ≤ length out.old }
    ensures { Wrote out.old at (line_of word.now numbers.now) out.new result }
{
    let mut end = text::put_bytes(out, at, word);
    for number in numbers {
        end = text::put_byte(out, end, b' ');
        end = text::put_decimal(out, end, *number);
    }
    text::put_byte(out, end, b'\n')
}

// The line of a refusal.
pub fn put_refused(out: &mut [u8], at: usize, number: u8) -> usize
    requires { at + 12 ≤ length out.old }
    ensures { Wrote out.old at (refused_text number) out.new result }
{
    let numbers = [number as u64];
    put_line(out, at, b"refused", &numbers)
}

// The answer to a malformed line.
pub fn put_malformed(out: &mut [u8], at: usize) -> usize
    requires { at + 10 ≤ length out.old }
    ensures { Wrote out.old at malformed_text out.new result }
{
    text::put_bytes(out, at, b"malformed\n")
}

// The answer to a line behind a malformed one.
pub fn put_skipped(out: &mut [u8], at: usize) -> usize
    requires { at + 8 ≤ length out.old }
    ensures { Wrote out.old at skipped_text out.new result }
{
    text::put_bytes(out, at, b"skipped\n")
}
