// Patterns as lines of text, and their answers: the rule file in hex digits, or `refused` and the
// number. A text of lines comes in blocks, cut anywhere.
#![tactic(auto)]

ghost use Rattle.std.specs.Prelude.{◌+◌, ◌≤◌, length};
ghost use Rattle.text.specs.Writing.{Wrote};
ghost use Rattle.ruletext.specs.RuleText.{refused_text};
ghost use Rattle.linetexts.specs.Feeding.{finish_of};
ghost use Rattle.linetexts.specs.Alone.{line_state, FedLines};
ghost use Rattle.patterns.specs.Limits.{longest_pattern};
ghost use Rattle.patterntext.specs.Answers.{answer_room, answer_text};
ghost use Rattle.patterntext.specs.Texts.{pattern_lines};

use base::Refusal;
use linetexts::{AnswersLines, Round};
use longlines::Held;

// Room for what is kept of a line: one byte more than a pattern may have, since a longer one is
// refused, and one that makes an odd rest even.
pub const LINE: usize = patterns::PATTERN + 2;

// Room for an answer: two hex digits for each byte of a file, and a line feed.
pub const ANSWER: usize = 2 * patterns::FILE + 1;

// The answer to a pattern.
fn put_answer(out: &mut [u8], at: usize, pattern: &[u8]) -> usize
    requires { at + answer_room ≤ length out.old }
    ensures { Wrote out.old at
        (answer_text pattern.now) out.new result }
{
    match patternfile::write_pattern(pattern) {
        Ok(file) => {
            let bytes = file.bytes;
            let end = hexfields::put_digits(out, at, &bytes[..file.length]);
            text::put_byte(out, end, b'\n')
        }
        Err(refusal) => answers::put_refused(out, at, refusal.number()),
    }
}

// Lines that are patterns.
#[derive(Clone, Copy)]
struct PatternLines;

impl AnswersLines for PatternLines {
    const ROOM: usize = ANSWER;

    ghost ROOM = { answer_room };

    ghost answer = { answer_text };

    ghost longest = { longest_pattern };

    ghost overlong = { refused_text 30 };

    fn put_answer(&mut self, line: &[u8], out: &mut [u8], at: usize) -> usize {
        put_answer(out, at, line)
    }

    fn put_overlong(out: &mut [u8], at: usize) -> usize {
        answers::put_refused(out, at, Refusal::LongPattern.number())
    }
}

// The parts of a block from an index on, while there is room for their answers, which stand one
// behind the other at the start of `out`. `line` keeps the line.
pub fn gather(held: Held, line: &mut [u8], out: &mut [u8], block: &[u8], from: usize) -> Round
    requires { longest_pattern + 2 ≤ length line.old }
    ensures { FedLines pattern_lines held line.old out.old block.now from line.new out.new result }
{
    linetexts::gather(&mut PatternLines, held, line, out, block, from)
}

// The end of the text: a last line that is not empty is answered.
pub fn finish(held: Held, line: &[u8], out: &mut [u8]) -> usize
    requires { (longest_pattern + 2 ≤ length line.now) × (answer_room ≤ length out.old) }
    ensures { Wrote out.old 0 (finish_of pattern_lines (line_state held line.now)).text out.new result }
{
    linetexts::finish(&mut PatternLines, held, line, out)
}
