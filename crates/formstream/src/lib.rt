// A text of lines of formtable that comes in blocks, cut anywhere, and its answers.
#![tactic(auto)]

ghost use Rattle.std.specs.Prelude.{◌+◌, ◌≤◌, length};
ghost use Rattle.text.specs.Writing.{Wrote};
ghost use Rattle.answers.specs.Answers.{malformed_text};
ghost use Rattle.linetexts.specs.Feeding.{finish_of};
ghost use Rattle.linetexts.specs.Alone.{line_state, FedLines};
ghost use Rattle.formline.specs.Lines.{longest_line};
ghost use Rattle.tabletext.specs.Answers.{most_answer};
ghost use Rattle.formstream.specs.Texts.{answer_to, form_lines};

use linetexts::{AnswersLines, Round};
use longlines::Held;

// Room for what is kept of a line: one byte more than the longest has, since a longer one is
// malformed, and one that makes an odd rest even.
pub const LINE: usize = 2 * limits::DIGITS + 8 * limits::SETS + 4 * limits::CELLS + 4 + 2;

// Room for an answer: four bytes for each cell of a table, and a line feed.
pub const ANSWER: usize = 4 * limits::CELLS + 1;

// The lines of formtable.
#[derive(Clone, Copy)]
struct FormLines;

impl AnswersLines for FormLines {
    const ROOM: usize = ANSWER;

    ghost ROOM = { most_answer };

    ghost answer = { answer_to };

    ghost longest = { longest_line };

    ghost overlong = { malformed_text };

    fn put_answer(&mut self, line: &[u8], out: &mut [u8], at: usize) -> usize {
        tabletext::put_answer(out, at, line)
    }

    fn put_overlong(out: &mut [u8], at: usize) -> usize {
        answers::put_malformed(out, at)
    }
}

// The parts of a block from an index on, while there is room for their answers, which stand one
// behind the other at the start of `out`. `line` keeps the line.
pub fn gather(held: Held, line: &mut [u8], out: &mut [u8], block: &[u8], from: usize) -> Round
    requires { longest_line + 2 ≤ length line.old }
    ensures { FedLines form_lines held line.old out.old block.now from line.new out.new result }
{
    linetexts::gather(&mut FormLines, held, line, out, block, from)
}

// The end of the text: a last line that is not empty is answered.
pub fn finish(held: Held, line: &[u8], out: &mut [u8]) -> usize
    requires { (longest_line + 2 ≤ length line.now) × (most_answer ≤ length out.old) }
    ensures { Wrote out.old 0 (finish_of form_lines (line_state held line.now)).text out.new result }
{
    linetexts::finish(&mut FormLines, held, line, out)
}
