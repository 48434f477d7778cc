// A text of lines of maketext that comes in blocks, cut anywhere, and its answers.
#![tactic(auto)]

ghost use Rattle.std.specs.Prelude.{◌+◌, ◌≤◌, length};
ghost use Rattle.limits.specs.Limits.{longest_chunk};
ghost use Rattle.text.specs.Writing.{Wrote};
ghost use Rattle.linetexts.specs.Feeding.{finish_of};
ghost use Rattle.linetexts.specs.Beginnings.{held_step};
ghost use Rattle.linetexts.specs.Alone.{line_state, FedLines};
ghost use Rattle.maketextlines.specs.Lines.{longest_line};
ghost use Rattle.maketextlines.specs.Answers.{most_answer};
ghost use Rattle.maketextstream.specs.Texts.{text_lines};

use linetexts::Round;
use longlines::Held;

// Room for what is kept of a line: one byte more than the longest has, since a longer one is
// malformed, and one that makes an odd rest even.
pub const LINE: usize = maketextlines::LINE + 2;

// The answer to a line that has ended. `text` is for the text that is made.
fn answer_held(line: &[u8], held: Held, text: &mut [u8], out: &mut [u8], at: usize) -> usize
    requires { (longest_chunk ≤ length text.old) × (at + most_answer ≤ length out.old) }
    ensures { Wrote out.old at (held_step text_lines tt line.now held).text out.new result }
{
    let seen = longlines::look(line, held);
    let n = seen.length;
    if seen.hex {
        return maketextlines::put_answer(&line[..n], text, out, at);
    }
    answers::put_malformed(out, at)
}

// The parts of a block from an index on, while there is room for their answers, which stand one
// behind the other at the start of `out`. `line` keeps the line. Not `linetexts::gather`: its answers
// need `text`, which is lent, and a type with a lifetime cannot be `AnswersLines` yet.
pub fn gather(
    held: Held,
    line: &mut [u8],
    text: &mut [u8],
    out: &mut [u8],
    block: &[u8],
    from: usize,
) -> Round
    requires { (longest_line + 2 ≤ length line.old) × (longest_chunk ≤ length text.old) }
    ensures { FedLines text_lines held line.old out.old block.now from line.new out.new result }
{
    let mut held = held;
    let mut at = from;
    let mut written: usize = 0;
    while at < block.len() {
        if out.len() - written < maketextlines::ANSWER {
            break;
        }
        let part = linetexts::take_part(held, line, block, at);
        at = part.at;
        held = part.held;
        if !part.ends {
            continue;
        }
        written = answer_held(line, held, text, out, written);
        held = longlines::nothing();
    }
    Round { held, at, written }
}

// The end of the text: a last line that is not empty is answered.
pub fn finish(held: Held, line: &[u8], text: &mut [u8], out: &mut [u8]) -> usize
    requires { (longest_line + 2 ≤ length line.now) × (longest_chunk ≤ length text.old) × (most_answer ≤ length out.old) }
    ensures { Wrote out.old 0 (finish_of text_lines (line_state held line.now)).text out.new result }
{
    if held.length == 0 {
        return 0;
    }
    answer_held(line, held, text, out, 0)
}
