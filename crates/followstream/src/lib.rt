// Answers the lines of a text for `tracefollow` that comes in blocks, cut anywhere.
#![tactic(auto)]

ghost use Rattle.std.specs.Prelude.{◌≡◌, ◌+◌, ◌≤◌, length};
ghost use Rattle.text.specs.Writing.{Wrote};
ghost use Rattle.longlines.specs.Holding.{held_meaning};
ghost use Rattle.linetexts.specs.Feeding.{finish_of, gather_at, Gathers};
ghost use Rattle.linetexts.specs.Beginnings.{held_step};
ghost use Rattle.linetexts.specs.Lists.{list_of, text_state};
ghost use Rattle.limits.specs.Limits.{bytes_room};
ghost use Rattle.followcalls.specs.Calls.{traced_means};
ghost use Rattle.followlines.specs.Answers.{most_answer};
ghost use Rattle.followstream.specs.Texts.{follow_room, told_as, follow_list, follow_lines};

use followcalls::{FollowState, Traced};
use linetexts::Pending;
use longlines::Held;

// Room for what is kept of a line: `next `, two hex digits for each of 65,537 bytes, which are too
// many, and one byte more, which makes an odd rest even.
pub const LINE: usize = 5 + 2 * limits::BYTES + 1;

// The state that a line leaves, whether the list has ended, and how many bytes the answer has.
#[derive(Clone, Copy)]
pub struct Answered {
    pub state: FollowState,
    pub ended: bool,
    pub written: usize,
}

// The state that some parts of a block leave, what is left for the next, where that begins, and how
// many bytes the answers have.
#[derive(Clone, Copy)]
pub struct Gathered {
    pub state: FollowState,
    pub pending: Pending,
    pub at: usize,
    pub written: usize,
}

// A line that has ended, in a list that goes on. `bytes` is for the bytes that it carries.
fn run_held(state: FollowState, line: &[u8], held: Held, bytes: &mut [u8]) -> Traced
    requires { bytes_room ≤ length bytes.old }
    ensures result_value { told_as (traced_means result) ≡ held_meaning (follow_list.step state) (follow_list.stray state) line.now held }
    ensures scratch { length bytes.new ≡ length bytes.old }
{
    let seen = longlines::look(line, held);
    let n = seen.length;
    if seen.hex {
        return followlines::run_line(state, &line[..n], bytes);
    }
    followlines::run_malformed(state)
}

// A line that has ended, with its answer at the start of `out`.
fn answer_held(
    state: FollowState,
    ended: bool,
    line: &[u8],
    held: Held,
    bytes: &mut [u8],
    out: &mut [u8],
) -> Answered
    requires { (bytes_room ≤ length bytes.old) × (most_answer ≤ length out.old) }
    ensures ended_value { list_of result.state result.ended ≡ (held_step follow_lines (list_of state ended) line.now held).state }
    ensures text { Wrote out.old 0 (held_step follow_lines (list_of state ended) line.now held).text out.new result.written }
    ensures scratch { length bytes.new ≡ length bytes.old }
{
    if linetexts::skips(ended, line, held) {
        let written = answers::put_skipped(out, 0);
        return Answered {
            state,
            ended,
            written,
        };
    }
    let ran = run_held(state, line, held, bytes);
    let answer = ran.answer;
    let ended = followlines::is_malformed(answer);
    let written = followlines::put_answer(out, answer);
    let state = ran.state;
    Answered {
        state,
        ended,
        written,
    }
}

// The parts of a block from an index on, while there is room for their answers, which stand one
// behind the other at the start of `out`. `line` keeps the line, `bytes` is for the bytes that it
// carries.
pub fn gather(
    state: FollowState,
    pending: Pending,
    line: &mut [u8],
    bytes: &mut [u8],
    out: &mut [u8],
    block: &[u8],
    from: usize,
) -> Gathered
    requires { (follow_room + 1 ≤ length line.old) × (bytes_room ≤ length bytes.old) }
    ensures gathers { Gathers (gather_at follow_lines block.now from (length out.old) (text_state state pending line.old)) from (text_state result.state result.pending line.new) result.at result.written out.old out.new }
    ensures scratch { length bytes.new ≡ length bytes.old }
{
    let mut state = state;
    let mut held = pending.held;
    let mut ended = pending.ended;
    let mut at = from;
    let mut written: usize = 0;
    while at < block.len() {
        if out.len() - written < followlines::ANSWER {
            break;
        }
        let part = linetexts::take_part(held, line, block, at);
        at = part.at;
        held = part.held;
        if !part.ends {
            continue;
        }
        let answered = answer_held(state, ended, line, held, bytes, &mut out[written..]);
        state = answered.state;
        ended = answered.ended;
        written += answered.written;
        held = longlines::nothing();
    }
    let pending = Pending { held, ended };
    Gathered {
        state,
        pending,
        at,
        written,
    }
}

// The end of the text.
pub fn finish(
    state: FollowState,
    pending: Pending,
    line: &[u8],
    bytes: &mut [u8],
    out: &mut [u8],
) -> usize
    requires { (follow_room + 1 ≤ length line.now) × (bytes_room ≤ length bytes.old) × (most_answer ≤ length out.old) }
    ensures wrote { Wrote out.old 0 (finish_of follow_lines (text_state state pending line.now)).text out.new result }
    ensures scratch { length bytes.new ≡ length bytes.old }
{
    let held = pending.held;
    if held.length == 0 {
        return 0;
    }
    let last = answer_held(state, pending.ended, line, held, bytes, out);
    last.written
}
