// Answers the lines of a text for `mapjudge` that comes in blocks, cut anywhere.
#![tactic(auto)]

ghost use Rattle.std.specs.Prelude.{◌≡◌, false, ◌+◌, ◌≤◌, length};
ghost use Rattle.limits.specs.Limits.{bytes_room};
ghost use Rattle.text.specs.Writing.{Wrote};
ghost use Rattle.linetexts.specs.Feeding.{finish_of, gather_at, Gathers};
ghost use Rattle.linetexts.specs.Beginnings.{held_step};
ghost use Rattle.linetexts.specs.Lists.{list_of, text_state};
ghost use Rattle.answers.specs.Answers.{skipped_text};
ghost use Rattle.mapreplies.specs.Replies.{most_answer};
ghost use Rattle.maplines.specs.Answers.{Scratch};
ghost use Rattle.mapstream.specs.Texts.{map_room, map_lines, changes_held};

use linetexts::Pending;
use longlines::Held;
use mapcalls::MapState;
use maplines::{Answered, Said};

// Room for what is kept of a line: `run `, two hex digits for each of 65,537 bytes, which are too
// many, and one byte more, which makes an odd rest even.
pub const LINE: usize = 4 + 2 * limits::BYTES + 1;

// The state that some parts of a block leave, what is left for the next, where that begins, and how
// many bytes the answers have.
#[derive(Clone, Copy)]
pub struct Gathered {
    pub state: MapState,
    pub pending: Pending,
    pub at: usize,
    pub written: usize,
}

// Whether a line that has ended may change which profile there is.
fn changes_held(line: &[u8], held: Held) -> bool
    ensures { result ≡ changes_held line.now held }
{
    let seen = longlines::look(line, held);
    let n = seen.length;
    if seen.hex {
        return maplines::changes(&line[..n]);
    }
    false
}

// The answer to a line that is skipped: the list stays ended.
fn say_skipped(out: &mut [u8], ended: bool) -> Said
    requires { most_answer ≤ length out.old }
    ensures { (result.ended ≡ ended) × Wrote out.old 0 skipped_text out.new result.written }
{
    let written = answers::put_skipped(out, 0);
    Said { written, ended }
}

// The answer to a line that has ended and leaves the profile as it is, and whether the list has
// ended.
fn answer_held(
    state: &MapState,
    ended: bool,
    line: &[u8],
    held: Held,
    bytes: &mut [u8],
    out: &mut [u8],
) -> Said
    requires { (changes_held line.now held ≡ false) × (bytes_room ≤ length bytes.old) × (most_answer ≤ length out.old) }
    ensures ended_value { list_of state.now result.ended ≡ (held_step map_lines (list_of state.now ended) line.now held).state }
    ensures text { Wrote out.old 0 (held_step map_lines (list_of state.now ended) line.now held).text out.new result.written }
    ensures scratch { Scratch bytes.old bytes.new }
{
    if linetexts::skips(ended, line, held) {
        return say_skipped(out, ended);
    }
    let seen = longlines::look(line, held);
    let n = seen.length;
    if seen.hex {
        return maplines::answer_line(state, &line[..n], bytes, out);
    }
    maplines::say_malformed(out)
}

// Any line that has ended: its answer, the state that it leaves, and whether the list has ended.
fn run_held(
    state: MapState,
    ended: bool,
    line: &[u8],
    held: Held,
    bytes: &mut [u8],
    out: &mut [u8],
) -> Answered
    requires { (bytes_room ≤ length bytes.old) × (most_answer ≤ length out.old) }
    ensures ended_value { list_of result.state result.said.ended ≡ (held_step map_lines (list_of state ended) line.now held).state }
    ensures text { Wrote out.old 0 (held_step map_lines (list_of state ended) line.now held).text out.new result.said.written }
    ensures scratch { Scratch bytes.old bytes.new }
{
    if linetexts::skips(ended, line, held) {
        let said = say_skipped(out, ended);
        return Answered { state, said };
    }
    let seen = longlines::look(line, held);
    let n = seen.length;
    if seen.hex {
        return maplines::run_line(state, &line[..n], bytes, out);
    }
    let said = maplines::say_malformed(out);
    Answered { state, said }
}

// The parts of a block from an index on, while there is room for their answers, which stand one
// behind the other at the start of `out`. `line` keeps the line, `bytes` is for the bytes that it
// carries. A line that leaves the profile as it is leaves the state where it is: nothing is copied.
pub fn gather(
    state: MapState,
    pending: Pending,
    line: &mut [u8],
    bytes: &mut [u8],
    out: &mut [u8],
    block: &[u8],
    from: usize,
) -> Gathered
    requires { (map_room + 1 ≤ length line.old) × (bytes_room ≤ length bytes.old) }
    ensures gathers { Gathers (gather_at map_lines block.now from (length out.old) (text_state state pending line.old)) from (text_state result.state result.pending line.new) result.at result.written out.old out.new }
    ensures scratch { Scratch bytes.old bytes.new }
{
    let mut state = state;
    let mut held = pending.held;
    let mut ended = pending.ended;
    let mut at = from;
    let mut written: usize = 0;
    while at < block.len() {
        if out.len() - written < mapreplies::ANSWER {
            break;
        }
        let part = linetexts::take_part(held, line, block, at);
        at = part.at;
        held = part.held;
        if !part.ends {
            continue;
        }
        if !changes_held(line, held) {
            let said = answer_held(&state, ended, line, held, bytes, &mut out[written..]);
            ended = said.ended;
            written += said.written;
            held = longlines::nothing();
            continue;
        }
        let answered = run_held(state, ended, line, held, bytes, &mut out[written..]);
        state = answered.state;
        ended = answered.said.ended;
        written += answered.said.written;
        held = longlines::nothing();
    }
    let pending = Pending { held, ended };
    Gathered {
        state,
        pending,
        at,
        written,
    }
}

// The end of the text.
pub fn finish(
    state: MapState,
    pending: Pending,
    line: &[u8],
    bytes: &mut [u8],
    out: &mut [u8],
) -> usize
    requires { (map_room + 1 ≤ length line.now) × (bytes_room ≤ length bytes.old) × (most_answer ≤ length out.old) }
    ensures wrote { Wrote out.old 0 (finish_of map_lines (text_state state pending line.now)).text out.new result }
    ensures scratch { Scratch bytes.old bytes.new }
{
    let held = pending.held;
    if held.length == 0 {
        return 0;
    }
    let last = run_held(state, pending.ended, line, held, bytes, out);
    last.said.written
}
