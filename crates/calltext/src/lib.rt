// Between the text of a list of calls and the calls: what a line means, and how its answer is
// written.
#![tactic(auto)]

ghost use Rattle.std.specs.Prelude.{◌≡◌, List, ℕ, ◌≤◌, length, drop};
ghost use Rattle.std.proofs.Math.Option.{some};
ghost use Rattle.limits.specs.Limits.{answer_room};
ghost use Rattle.text.specs.Writing.{Wrote};
ghost use Rattle.fields.specs.Numbers.{parse_number};
ghost use Rattle.lines.specs.Splitting.{up_to, past};
ghost use Rattle.calltext.specs.Meaning.{open_by, withdraw_by, revision_fields, deliver_fields, line_means, bytes_from, Parsed};
ghost use Rattle.calltext.specs.Answers.{replied, is_malformed, response_text, answer_means};
ghost use Rattle.calls.specs.Replies.{judged, install_means, call_means, deliver_means, report_means};

use base::Refusal;
use calls::{Report, Sizes, Verdict};

// A line. The bytes of a load begin at index 5, those of an installation at 8, those of a delivery
// at the index beside its place and its revision.
#[derive(Clone, Copy)]
pub enum Line {
    Empty,
    Load,
    Install,
    Open(u64),
    Deliver(u64, u32, usize),
    Withdraw(u64),
    Verdict,
    Malformed,
}

fn opening(field: &[u8]) -> Line
    ensures { (bytes_from result ≡ 0) × ((w : List ℕ) → line_means w result ≡ open_by (parse_number field.now)) }
{
    match fields::read_number(field) {
        Some(places) => Line::Open(places),
        None => Line::Malformed,
    }
}

fn withdrawal(field: &[u8]) -> Line
    ensures { (bytes_from result ≡ 0) × ((w : List ℕ) → line_means w result ≡ withdraw_by (parse_number field.now)) }
{
    match fields::read_number(field) {
        Some(place) => Line::Withdraw(place),
        None => Line::Malformed,
    }
}

// A delivery at the place: from an index on a revision up to the next space, and bytes behind it.
fn delivery_at(line: &[u8], place: u64, from: usize) -> Line
    requires { from ≤ length line.now }
    ensures { (bytes_from result ≤ length line.now) × (line_means line.now result ≡ revision_fields (some place) (up_to 32 (drop from line.now)) (past 32 (drop from line.now))) }
{
    let space = lines::find(line, from, b' ');
    if line.len() <= space {
        return Line::Malformed;
    }
    let Some(revision) = fields::read_number(&line[from..space]) else {
        return Line::Malformed;
    };
    if limits::REVISION < revision {
        return Line::Malformed;
    }
    Line::Deliver(place, revision as u32, space + 1)
}

// A place up to the next space, and behind it a revision and bytes.
fn delivery(line: &[u8]) -> Line
    requires { 8 ≤ length line.now }
    ensures { (bytes_from result ≤ length line.now) × (line_means line.now result ≡ deliver_fields (up_to 32 (drop 8 line.now)) (past 32 (drop 8 line.now))) }
{
    let space = lines::find(line, 8, b' ');
    if line.len() <= space {
        return Line::Malformed;
    }
    match fields::read_number(&line[8..space]) {
        Some(place) => delivery_at(line, place, space + 1),
        None => Line::Malformed,
    }
}

// Takes a line apart, but for the bytes that it may carry.
pub fn parse(line: &[u8]) -> Line
    ensures { Parsed line.now result }
{
    if line.len() == 0 {
        return Line::Empty;
    }
    if lines::begins_with(line, b"verdict") {
        if line.len() == 7 {
            return Line::Verdict;
        }
        return Line::Malformed;
    }
    if lines::begins_with(line, b"load ") {
        return Line::Load;
    }
    if lines::begins_with(line, b"install ") {
        return Line::Install;
    }
    if lines::begins_with(line, b"open ") {
        return opening(&line[5..]);
    }
    if lines::begins_with(line, b"deliver ") {
        return delivery(line);
    }
    if lines::begins_with(line, b"withdraw ") {
        return withdrawal(&line[9..]);
    }
    Line::Malformed
}

// What a line is answered: where it records a call, what the call is answered. A load has the same
// type of answer as an installation, with the numbers 1 to 9.
#[derive(Clone, Copy)]
pub enum LineAnswer {
    Began,
    Install(Result<Sizes, Refusal>),
    Open(Result<(), Refusal>),
    Deliver(Result<u32, Refusal>),
    Withdraw(Result<(), Refusal>),
    Verdict(Report),
    Malformed,
}

// What a call is answered, a function for each type of answer.
fn put_install(out: &mut [u8], answer: Result<Sizes, Refusal>) -> usize
    requires { answer_room ≤ length out.old }
    ensures { Wrote out.old 0 (response_text (replied (install_means answer))) out.new result }
{
    match answer {
        Ok(sizes) => {
            let numbers = [sizes.sets as u64, sizes.starts as u64];
            answers::put_line(out, 0, b"accepted", &numbers)
        }
        Err(refusal) => answers::put_refused(out, 0, refusal.number()),
    }
}

fn put_call(out: &mut [u8], answer: Result<(), Refusal>) -> usize
    requires { answer_room ≤ length out.old }
    ensures { Wrote out.old 0 (response_text (replied (call_means answer))) out.new result }
{
    match answer {
        Ok(()) => text::put_bytes(out, 0, b"accepted\n"),
        Err(refusal) => answers::put_refused(out, 0, refusal.number()),
    }
}

fn put_deliver(out: &mut [u8], answer: Result<u32, Refusal>) -> usize
    requires { answer_room ≤ length out.old }
    ensures { Wrote out.old 0 (response_text (replied (deliver_means answer))) out.new result }
{
    match answer {
        Ok(looked) => {
            let numbers = [looked as u64];
            answers::put_line(out, 0, b"accepted", &numbers)
        }
        Err(refusal) => answers::put_refused(out, 0, refusal.number()),
    }
}

fn put_report(out: &mut [u8], report: Report) -> usize
    requires { answer_room ≤ length out.old }
    ensures { Wrote out.old 0 (response_text (replied (judged (report_means report)))) out.new result }
{
    match report.verdict {
        Verdict::Waiting(empty) => {
            let numbers = [empty as u64];
            answers::put_line(out, 0, b"waiting", &numbers)
        }
        Verdict::Yes(count) => {
            let numbers = [count, report.bytes, report.quotient, report.remainder];
            answers::put_line(out, 0, b"yes", &numbers)
        }
        Verdict::No(count) => {
            let numbers = [count, report.bytes, report.quotient, report.remainder];
            answers::put_line(out, 0, b"no", &numbers)
        }
        Verdict::Refused(refusal) => answers::put_refused(out, 0, refusal.number()),
    }
}

// Writes an answer at the buffer's start and tells its length; 96 bytes are enough.
pub fn put_answer(out: &mut [u8], answer: LineAnswer) -> usize
    requires { answer_room ≤ length out.old }
    ensures { Wrote out.old 0 (response_text (answer_means answer)) out.new result }
{
    match answer {
        LineAnswer::Began => text::put_byte(out, 0, b'\n'),
        LineAnswer::Install(said) => put_install(out, said),
        LineAnswer::Open(said) => put_call(out, said),
        LineAnswer::Deliver(said) => put_deliver(out, said),
        LineAnswer::Withdraw(said) => put_call(out, said),
        LineAnswer::Verdict(said) => put_report(out, said),
        LineAnswer::Malformed => answers::put_malformed(out, 0),
    }
}

// Whether an answer says that the line is malformed.
pub fn is_malformed(answer: LineAnswer) -> bool
    ensures { result ≡ is_malformed (answer_means answer) }
{
    matches!(answer, LineAnswer::Malformed)
}
