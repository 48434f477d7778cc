// Runs the call that a line of `tracefollow` makes, and writes its answer.
#![tactic(auto)]

ghost use Rattle.std.specs.Prelude.{◌≡◌, ◌++◌, ◌+◌, ◌≤◌, length};
ghost use Rattle.std.proofs.Math.Option.{none, some};
ghost use Rattle.limits.specs.Limits.{bytes_room};
ghost use Rattle.text.specs.Writing.{Wrote};
ghost use Rattle.fields.specs.Bytes.{parse_bytes};
ghost use Rattle.base.specs.Options.{is_none};
ghost use Rattle.followcalls.specs.Calls.{forgets, lost_at, call_step, answer_means, traced_means};
ghost use Rattle.followlines.specs.Lines.{call_of, call_by, line_in};
ghost use Rattle.followlines.specs.Answers.{most_answer, mask_text, reply_text, response_text, line_step};

use followcalls::{FollowState, TraceAnswer, Traced};

// Room for any answer: `lost `, ten digits, a space, four digits and a line feed.
pub const ANSWER: usize = 21;

// A malformed line changes nothing.
pub fn run_malformed(state: FollowState) -> Traced
    ensures { traced_means result ≡ line_step state none }
{
    let answer = TraceAnswer::Malformed;
    Traced { answer, state }
}

// An empty line begins afresh.
fn run_empty(state: FollowState) -> Traced
    ensures { traced_means result ≡ line_step state (some forgets) }
{
    let answer = TraceAnswer::Forgotten;
    let state = followcalls::fresh();
    Traced { answer, state }
}

// Begins a trace by the rule in a file, or else follows the next chunk.
fn make(state: FollowState, rule: bool, bytes: &[u8]) -> Traced
    ensures { traced_means result ≡ call_step state (call_of rule bytes.now) }
{
    if rule {
        followcalls::begin(state, bytes)
    } else {
        followcalls::next(state, bytes)
    }
}

// A field that says a file or a chunk. The bytes go through the lent buffer; what is longer than the
// buffer is refused by its length alone, so what does not fit is not missed.
fn run_field(state: FollowState, rule: bool, field: &[u8], buffer: &mut [u8]) -> Traced
    requires { bytes_room ≤ length buffer.old }
    ensures result_value { traced_means result ≡ line_step state (call_by rule (parse_bytes field.now)) }
    ensures scratch { length buffer.new ≡ length buffer.old }
{
    match fields::read_bytes(field, buffer) {
        None => run_malformed(state),
        Some(n) => make(state, rule, &buffer[..n]),
    }
}

// One line. The buffer is for the bytes that the line carries.
pub fn run_line(state: FollowState, line: &[u8], buffer: &mut [u8]) -> Traced
    requires { bytes_room ≤ length buffer.old }
    ensures result_value { traced_means result ≡ line_step state (line_in line.now) }
    ensures scratch { length buffer.new ≡ length buffer.old }
{
    if line.len() == 0 {
        return run_empty(state);
    }
    if lines::begins_with(line, b"rule ") {
        return run_field(state, true, &line[5..], buffer);
    }
    if lines::begins_with(line, b"next ") {
        return run_field(state, false, &line[5..], buffer);
    }
    run_malformed(state)
}

// A space, the four digits of a mask, and a line feed.
fn put_mask(out: &mut [u8], at: usize, mask: u16) -> usize
    requires { at + 6 ≤ length out.old }
    ensures { Wrote out.old at (mask_text mask) out.new result }
{
    let at = text::put_byte(out, at, b' ');
    let at = text::put_hex(out, at, 4, mask as u64);
    text::put_byte(out, at, b'\n')
}

// The line of a trace that is not lost: a word and a mask.
fn put_going(out: &mut [u8], word: &[u8], mask: u16) -> usize
    requires { length word.now + 6 ≤ length out.old }
    ensures { Wrote out.old 0 (word.now ++ mask_text mask) out.new result }
{
    let at = text::put_bytes(out, 0, word);
    put_mask(out, at, mask)
}

// The line of a trace that is lost.
fn put_lost(out: &mut [u8], bytes: u32, mask: u16) -> usize
    requires { most_answer ≤ length out.old }
    ensures { Wrote out.old 0 (reply_text (lost_at bytes mask)) out.new result }
{
    let at = text::put_bytes(out, 0, b"lost ");
    let at = text::put_decimal(out, at, bytes as u64);
    put_mask(out, at, mask)
}

// Writes an answer at the buffer's start and tells its length.
pub fn put_answer(out: &mut [u8], answer: TraceAnswer) -> usize
    requires { most_answer ≤ length out.old }
    ensures { Wrote out.old 0 (response_text (answer_means answer)) out.new result }
{
    match answer {
        TraceAnswer::Forgotten => text::put_byte(out, 0, b'\n'),
        TraceAnswer::Begun => text::put_bytes(out, 0, b"accepted\n"),
        TraceAnswer::Yes(mask) => put_going(out, b"yes", mask),
        TraceAnswer::No(mask) => put_going(out, b"no", mask),
        TraceAnswer::Lost(bytes, mask) => put_lost(out, bytes, mask),
        TraceAnswer::Refused(refusal) => answers::put_refused(out, 0, refusal.number()),
        TraceAnswer::Malformed => answers::put_malformed(out, 0),
    }
}

// Whether an answer says that the line is malformed.
pub fn is_malformed(answer: TraceAnswer) -> bool
    ensures { result ≡ is_none (answer_means answer) }
{
    matches!(answer, TraceAnswer::Malformed)
}
