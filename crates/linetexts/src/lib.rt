// Takes a block of text apart, part by part, each up to the next line feed; says which lines are
// skipped; and answers lines that stand alone.
#![tactic(auto)]

ghost use Rattle.std.specs.Prelude.{◌≡◌, false, List, ℕ, ◌+◌, ◌<◌, ◌≤◌, length};
ghost use Rattle.text.specs.Writing.{Wrote};
ghost use Rattle.longlines.specs.Holding.{line_begin};
ghost use Rattle.linetexts.specs.Parts.{part_at, PlaceOf, TookPart};
ghost use Rattle.linetexts.specs.Feeding.{finish_of};
ghost use Rattle.linetexts.specs.Beginnings.{held_step};
ghost use Rattle.linetexts.specs.Lists.{skips_held};
ghost use Rattle.linetexts.specs.Alone.{answering, line_state, FedLines};

use longlines::Held;

// A part of a block: where its bytes end, where the next part begins, and whether a line feed ends it.
#[derive(Clone, Copy)]
pub struct Place {
    pub end: usize,
    pub next: usize,
    pub ends: bool,
}

// A line with a part of a block behind it, where the next part begins, and whether the line ends.
#[derive(Clone, Copy)]
pub struct Taken {
    pub held: Held,
    pub at: usize,
    pub ends: bool,
}

// What is left between the blocks of a text: a line that goes on, and whether a malformed line ended
// its list.
#[derive(Clone, Copy)]
pub struct Pending {
    pub held: Held,
    pub ended: bool,
}

// What lines that stand alone leave: the line that goes on, where the next part begins, and how many
// bytes the answers have.
#[derive(Clone, Copy)]
pub struct Round {
    pub held: Held,
    pub at: usize,
    pub written: usize,
}

// What answers lines that stand alone, each by itself.
pub trait AnswersLines {
    // Room for an answer.
    const ROOM: usize;

    ghost ROOM: { ℕ };

    // The answer to a line.
    ghost answer: { List ℕ → List ℕ };

    // The length of the longest line that is told from others.
    ghost longest: { ℕ };

    // The answer to any line that is longer.
    ghost overlong: { List ℕ };

    // Writes the answer to a line.
    fn put_answer(&mut self, line: &[u8], out: &mut [u8], at: usize) -> usize
        requires { at + ROOM ≤ length out.old }
        ensures { Wrote out.old at (answer line.now) out.new result };

    // Writes the answer to any line that is longer.
    fn put_overlong(out: &mut [u8], at: usize) -> usize
        requires { at + ROOM ≤ length out.old }
        ensures { Wrote out.old at overlong out.new result };
}

// The beginning of a text.
pub fn nothing_yet() -> Pending
    ensures { result ≡ record { held = line_begin; ended = false } }
{
    let held = longlines::nothing();
    let ended = false;
    Pending { held, ended }
}

// Whether a line that has ended is skipped: a malformed line ended its list, and it is not empty.
pub fn skips(ended: bool, line: &[u8], held: Held) -> bool
    ensures { result ≡ skips_held ended line.now held }
{
    if !ended {
        return false;
    }
    let seen = longlines::look(line, held);
    if seen.hex {
        return 0 < seen.length;
    }
    true
}

// The part of a block at an index: up to the next line feed, or to the block's end.
pub fn part_at(block: &[u8], at: usize) -> Place
    requires { at < length block.now }
    ensures { PlaceOf block.now at result }
{
    let end = lines::find(block, at, b'\n');
    if end < block.len() {
        let next = end + 1;
        let ends = true;
        return Place { end, next, ends };
    }
    let next = end;
    let ends = false;
    Place { end, next, ends }
}

// The line goes on with the part of a block at an index. `line` keeps it.
pub fn take_part(held: Held, line: &mut [u8], block: &[u8], at: usize) -> Taken
    requires { at < length block.now }
    ensures { TookPart held line.old at (part_at block.now at) result line.new }
{
    let part = part_at(block, at);
    let end = part.end;
    let held = longlines::hold(line, held, &block[at..end]);
    let at = part.next;
    let ends = part.ends;
    Taken { held, at, ends }
}

// The answer to a line that has ended.
fn answer_held<A: AnswersLines>(
    by: &mut A,
    line: &[u8],
    held: Held,
    out: &mut [u8],
    at: usize,
) -> usize
    requires { at + A.ROOM ≤ length out.old }
    ensures { Wrote out.old at (held_step (answering A.answer A.overlong A.longest A.ROOM) tt line.now held).text out.new result }
{
    let seen = longlines::look(line, held);
    let n = seen.length;
    if seen.hex {
        return by.put_answer(&line[..n], out, at);
    }
    A::put_overlong(out, at)
}

// The parts of a block from an index on, while there is room for the answers to the lines that they
// end, which stand one behind the other at the start of `out`. `line` keeps the line.
pub fn gather<A: AnswersLines>(
    by: &mut A,
    held: Held,
    line: &mut [u8],
    out: &mut [u8],
    block: &[u8],
    from: usize,
) -> Round
    requires { A.longest + 2 ≤ length line.old }
    ensures { FedLines (answering A.answer A.overlong A.longest A.ROOM) held line.old out.old block.now from line.new out.new result }
{
    let mut held = held;
    let mut at = from;
    let mut written: usize = 0;
    while at < block.len() {
        if out.len() - written < A::ROOM {
            break;
        }
        let part = take_part(held, line, block, at);
        at = part.at;
        held = part.held;
        if !part.ends {
            continue;
        }
        written = answer_held(by, line, held, out, written);
        held = longlines::nothing();
    }
    Round { held, at, written }
}

// The end of a text: a last line that is not empty is answered.
pub fn finish<A: AnswersLines>(by: &mut A, held: Held, line: &[u8], out: &mut [u8]) -> usize
    requires { (A.longest + 2 ≤ length line.now) × (A.ROOM ≤ length out.old) }
    ensures { Wrote out.old 0 (finish_of (answering A.answer A.overlong A.longest A.ROOM) (line_state held line.now)).text out.new result }
{
    if held.length == 0 {
        return 0;
    }
    answer_held(by, line, held, out, 0)
}
