// Answers the lines of a text for `trayjudge` that comes in blocks, cut anywhere.
#![tactic(auto)]

ghost use Rattle.std.specs.Prelude.{◌≡◌, ◌+◌, ◌≤◌, length};
ghost use Rattle.text.specs.Writing.{Wrote};
ghost use Rattle.longlines.specs.Holding.{held_meaning};
ghost use Rattle.linetexts.specs.Feeding.{finish_of, gather_at, Gathers};
ghost use Rattle.linetexts.specs.Beginnings.{held_step};
ghost use Rattle.linetexts.specs.Lists.{list_of, text_state};
ghost use Rattle.traytext.specs.Answers.{most_answer};
ghost use Rattle.traylines.specs.Running.{bytes_room, run_outcome, Scratch};
ghost use Rattle.traystream.specs.Texts.{tray_room, told_as, tray_list, tray_lines};

use linetexts::Pending;
use longlines::Held;
use traylines::LineRun;
use trays::Tray;

// Room for what is kept of a line: `column `, two hex digits for each byte of a file that is too
// long, and one byte more, which makes an odd rest even.
pub const LINE: usize = 7 + 2 * traylines::BYTES + 1;

// The tray that a line leaves, whether the list has ended, and how many bytes the answer has.
#[derive(Clone, Copy)]
pub struct Answered {
    pub tray: Tray,
    pub ended: bool,
    pub written: usize,
}

// The tray that some parts of a block leave, what is left for the next, where that begins, and how
// many bytes the answers have.
#[derive(Clone, Copy)]
pub struct Gathered {
    pub tray: Tray,
    pub pending: Pending,
    pub at: usize,
    pub written: usize,
}

// A line that has ended, in a list that goes on. `bytes` is for the bytes that it carries.
fn run_held(tray: Tray, line: &[u8], held: Held, bytes: &mut [u8]) -> LineRun
    requires { bytes_room ≤ length bytes.old }
    ensures result_value { told_as (run_outcome result) ≡ held_meaning (tray_list.step tray) (tray_list.stray tray) line.now held }
    ensures scratch { Scratch bytes.old bytes.new }
{
    let seen = longlines::look(line, held);
    let n = seen.length;
    if seen.hex {
        return traylines::run_line(tray, &line[..n], bytes);
    }
    traylines::run_malformed(tray)
}

// A line that has ended, with its answer at the start of `out`.
fn answer_held(
    tray: Tray,
    ended: bool,
    line: &[u8],
    held: Held,
    bytes: &mut [u8],
    out: &mut [u8],
) -> Answered
    requires { (bytes_room ≤ length bytes.old) × (most_answer ≤ length out.old) }
    ensures ended_value { list_of result.tray result.ended ≡ (held_step tray_lines (list_of tray ended) line.now held).state }
    ensures text { Wrote out.old 0 (held_step tray_lines (list_of tray ended) line.now held).text out.new result.written }
    ensures scratch { Scratch bytes.old bytes.new }
{
    if linetexts::skips(ended, line, held) {
        let written = answers::put_skipped(out, 0);
        return Answered {
            tray,
            ended,
            written,
        };
    }
    let ran = run_held(tray, line, held, bytes);
    let answer = ran.answer;
    let ended = traytext::is_malformed(answer);
    let written = traytext::put_answer(out, answer);
    let tray = ran.tray;
    Answered {
        tray,
        ended,
        written,
    }
}

// The parts of a block from an index on, while there is room for their answers, which stand one
// behind the other at the start of `out`. `line` keeps the line, `bytes` is for the bytes that it
// carries.
pub fn gather(
    tray: Tray,
    pending: Pending,
    line: &mut [u8],
    bytes: &mut [u8],
    out: &mut [u8],
    block: &[u8],
    from: usize,
) -> Gathered
    requires { (tray_room + 1 ≤ length line.old) × (bytes_room ≤ length bytes.old) }
    ensures gathers { Gathers (gather_at tray_lines block.now from (length out.old) (text_state tray pending line.old)) from (text_state result.tray result.pending line.new) result.at result.written out.old out.new }
    ensures scratch { Scratch bytes.old bytes.new }
{
    let mut tray = tray;
    let mut held = pending.held;
    let mut ended = pending.ended;
    let mut at = from;
    let mut written: usize = 0;
    while at < block.len() {
        if out.len() - written < traytext::ANSWER {
            break;
        }
        let part = linetexts::take_part(held, line, block, at);
        at = part.at;
        held = part.held;
        if !part.ends {
            continue;
        }
        let answered = answer_held(tray, ended, line, held, bytes, &mut out[written..]);
        tray = answered.tray;
        ended = answered.ended;
        written += answered.written;
        held = longlines::nothing();
    }
    let pending = Pending { held, ended };
    Gathered {
        tray,
        pending,
        at,
        written,
    }
}

// The end of the text.
pub fn finish(tray: Tray, pending: Pending, line: &[u8], bytes: &mut [u8], out: &mut [u8]) -> usize
    requires { (tray_room + 1 ≤ length line.now) × (bytes_room ≤ length bytes.old) × (most_answer ≤ length out.old) }
    ensures wrote { Wrote out.old 0 (finish_of tray_lines (text_state tray pending line.now)).text out.new result }
    ensures scratch { Scratch bytes.old bytes.new }
{
    let held = pending.held;
    if held.length == 0 {
        return 0;
    }
    let last = answer_held(tray, pending.ended, line, held, bytes, out);
    last.written
}
