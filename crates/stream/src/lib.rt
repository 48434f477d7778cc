// Answers the lines of a text that comes in blocks, cut anywhere: calls are run, questions answered.
#![tactic(auto)]

ghost use Rattle.std.specs.Prelude.{◌≤◌, length};
ghost use Rattle.limits.specs.Limits.{bytes_room, line_room, answer_room};
ghost use Rattle.text.specs.Writing.{Wrote};
ghost use Rattle.callrun.specs.Running.{Scratch};
ghost use Rattle.linetexts.specs.Feeding.{finish_of, gather_at, Gathers};
ghost use Rattle.linetexts.specs.Lists.{text_state};
ghost use Rattle.stream.specs.Texts.{call_lines};

use calls::Judge;
use linetexts::Pending;
use questions::TextLine;

// The judge that some parts of a block leave, what is left for the next, where that begins, and how
// many bytes the answers have.
#[derive(Clone, Copy)]
pub struct Gathered {
    pub judge: Judge,
    pub pending: Pending,
    pub at: usize,
    pub written: usize,
}

// The parts of a block from an index on, while there is room for their answers, which stand one
// behind the other at the start of `out`. `line` keeps the line, `bytes` is for the bytes that it
// carries. Each line is read once. One that asks leaves the judge where it is; for the verdict nothing
// is copied.
pub fn gather(
    judge: Judge,
    pending: Pending,
    line: &mut [u8],
    bytes: &mut [u8],
    out: &mut [u8],
    block: &[u8],
    from: usize,
) -> Gathered
    requires { (line_room ≤ length line.old) × (bytes_room ≤ length bytes.old) }
    ensures gathers { Gathers (gather_at call_lines block.now from (length out.old) (text_state judge pending line.old)) from (text_state result.judge result.pending line.new) result.at result.written out.old out.new }
    ensures scratch { Scratch bytes.old bytes.new }
{
    let mut judge = judge;
    let mut held = pending.held;
    let mut ended = pending.ended;
    let mut at = from;
    let mut written: usize = 0;
    while at < block.len() {
        if out.len() - written < limits::ANSWER {
            break;
        }
        let part = linetexts::take_part(held, line, block, at);
        at = part.at;
        held = part.held;
        if !part.ends {
            continue;
        }
        if linetexts::skips(ended, line, held) {
            written += answers::put_skipped(&mut out[written..], 0);
            held = longlines::nothing();
            continue;
        }
        let read = linebuffer::read_line(line, held);
        let n = read.length;
        let told = read.line;
        held = longlines::nothing();
        match told {
            TextLine::Verdict => {
                ended = false;
                written += linebuffer::ask_verdict(judge, &mut out[written..]);
            }
            TextLine::Asks(query) => {
                let said = linebuffer::ask(judge, query, &line[..n], bytes, &mut out[written..]);
                ended = said.ended;
                written += said.written;
            }
            TextLine::Runs(parsed) => {
                let run = linebuffer::run(judge, parsed, &line[..n], bytes, &mut out[written..]);
                judge = run.judge;
                ended = run.ended;
                written += run.written;
            }
        }
    }
    let pending = Pending { held, ended };
    Gathered {
        judge,
        pending,
        at,
        written,
    }
}

// The end of the text.
pub fn finish(
    judge: Judge,
    pending: Pending,
    line: &[u8],
    bytes: &mut [u8],
    out: &mut [u8],
) -> usize
    requires { (line_room ≤ length line.now) × (bytes_room ≤ length bytes.old) × (answer_room ≤ length out.old) }
    ensures wrote { Wrote out.old 0 (finish_of call_lines (text_state judge pending line.now)).text out.new result }
    ensures scratch { Scratch bytes.old bytes.new }
{
    let held = pending.held;
    if held.length == 0 {
        return 0;
    }
    if linetexts::skips(pending.ended, line, held) {
        return answers::put_skipped(out, 0);
    }
    let read = linebuffer::read_line(line, held);
    let n = read.length;
    let told = read.line;
    match told {
        TextLine::Verdict => linebuffer::ask_verdict(judge, out),
        TextLine::Asks(query) => {
            let said = linebuffer::ask(judge, query, &line[..n], bytes, out);
            said.written
        }
        TextLine::Runs(parsed) => {
            let run = linebuffer::run(judge, parsed, &line[..n], bytes, out);
            run.written
        }
    }
}
