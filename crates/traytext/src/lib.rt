// Between the text of a list of a tray's calls and the calls: what a line means, and how its answer
// is written.
#![tactic(auto)]

ghost use Rattle.std.specs.Prelude.{◌≡◌, List, ℕ, ◌≤◌, length, drop};
ghost use Rattle.text.specs.Writing.{Wrote};
ghost use Rattle.lines.specs.Splitting.{up_to, past};
ghost use Rattle.fields.specs.Numbers.{parse_number};
ghost use Rattle.trays.specs.Replies.{installed, waiting, judged, install_means, call_means, verdict_means};
ghost use Rattle.traytext.specs.Lines.{withdraw_by, open_fields, deliver_fields, line_means, bytes_from, Parsed};
ghost use Rattle.traytext.specs.Answers.{most_answer, is_malformed, reply_text, response_text, answer_means};

use base::Refusal;
use calls::Sizes;
use trays::TrayVerdict;

// A line. The bytes of a row rule begin at index 4, those of a column rule at 7, those of a delivery
// at the index beside its band.
#[derive(Clone, Copy)]
pub enum Line {
    Empty,
    Row,
    Column,
    Open(u64, u64),
    Deliver(u64, usize),
    Withdraw(u64),
    Verdict,
    Malformed,
}

// Two numbers from index 5 on, one space between them.
fn opening(line: &[u8]) -> Line
    requires { 5 ≤ length line.now }
    ensures { (bytes_from result ≡ 0) × (line_means line.now result ≡ open_fields (up_to 32 (drop 5 line.now)) (past 32 (drop 5 line.now))) }
{
    let space = lines::find(line, 5, b' ');
    if line.len() <= space {
        return Line::Malformed;
    }
    let Some(width) = fields::read_number(&line[5..space]) else {
        return Line::Malformed;
    };
    let from = space + 1;
    match fields::read_number(&line[from..]) {
        Some(bands) => Line::Open(width, bands),
        None => Line::Malformed,
    }
}

// A band from index 8 on, and behind one space the bytes.
fn delivery(line: &[u8]) -> Line
    requires { 8 ≤ length line.now }
    ensures { (bytes_from result ≤ length line.now) × (line_means line.now result ≡ deliver_fields (up_to 32 (drop 8 line.now)) (past 32 (drop 8 line.now))) }
{
    let space = lines::find(line, 8, b' ');
    if line.len() <= space {
        return Line::Malformed;
    }
    match fields::read_number(&line[8..space]) {
        Some(band) => Line::Deliver(band, space + 1),
        None => Line::Malformed,
    }
}

fn withdrawal(field: &[u8]) -> Line
    ensures { (bytes_from result ≡ 0) × ((w : List ℕ) → line_means w result ≡ withdraw_by (parse_number field.now)) }
{
    match fields::read_number(field) {
        Some(band) => Line::Withdraw(band),
        None => Line::Malformed,
    }
}

// Takes a line apart, but for the bytes that it may carry.
pub fn parse(line: &[u8]) -> Line
    ensures { Parsed line.now result }
{
    if line.len() == 0 {
        return Line::Empty;
    }
    if lines::begins_with(line, b"verdict") {
        if line.len() == 7 {
            return Line::Verdict;
        }
        return Line::Malformed;
    }
    if lines::begins_with(line, b"row ") {
        return Line::Row;
    }
    if lines::begins_with(line, b"column ") {
        return Line::Column;
    }
    if lines::begins_with(line, b"open ") {
        return opening(line);
    }
    if lines::begins_with(line, b"deliver ") {
        return delivery(line);
    }
    if lines::begins_with(line, b"withdraw ") {
        return withdrawal(&line[9..]);
    }
    Line::Malformed
}

// What a line is answered: where it makes a call, what the call is answered. The rule of a file has
// the same type of answer as an installation, with the numbers 1 to 9.
#[derive(Clone, Copy)]
pub enum LineAnswer {
    Began,
    Install(Result<Sizes, Refusal>),
    Call(Result<(), Refusal>),
    Verdict(TrayVerdict),
    Malformed,
}

// Room for any answer: `accepted`, a number of 16 bits and one of 8.
pub const ANSWER: usize = 19;

// The answer where a rule was installed.
fn put_installed(out: &mut [u8], sets: u16, starts: u8) -> usize
    requires { most_answer ≤ length out.old }
    ensures { Wrote out.old 0 (reply_text (installed sets starts)) out.new result }
{
    let numbers = [sets as u64, starts as u64];
    answers::put_line(out, 0, b"accepted", &numbers)
}

// The answer where bands are empty.
fn put_waiting(out: &mut [u8], empty: u8) -> usize
    requires { most_answer ≤ length out.old }
    ensures { Wrote out.old 0 (reply_text (judged (waiting empty))) out.new result }
{
    let numbers = [empty as u64];
    answers::put_line(out, 0, b"waiting", &numbers)
}

// What a call is answered, a function for each type of answer.
fn put_install(out: &mut [u8], answer: Result<Sizes, Refusal>) -> usize
    requires { most_answer ≤ length out.old }
    ensures { Wrote out.old 0 (reply_text (install_means answer)) out.new result }
{
    match answer {
        Ok(sizes) => put_installed(out, sizes.sets, sizes.starts),
        Err(refusal) => answers::put_refused(out, 0, refusal.number()),
    }
}

fn put_call(out: &mut [u8], answer: Result<(), Refusal>) -> usize
    requires { most_answer ≤ length out.old }
    ensures { Wrote out.old 0 (reply_text (call_means answer)) out.new result }
{
    match answer {
        Ok(()) => text::put_bytes(out, 0, b"accepted\n"),
        Err(refusal) => answers::put_refused(out, 0, refusal.number()),
    }
}

fn put_verdict(out: &mut [u8], answer: TrayVerdict) -> usize
    requires { most_answer ≤ length out.old }
    ensures { Wrote out.old 0 (reply_text (judged (verdict_means answer))) out.new result }
{
    match answer {
        TrayVerdict::Waiting(empty) => put_waiting(out, empty),
        TrayVerdict::Yes => text::put_bytes(out, 0, b"yes\n"),
        TrayVerdict::No => text::put_bytes(out, 0, b"no\n"),
        TrayVerdict::Refused(refusal) => answers::put_refused(out, 0, refusal.number()),
    }
}

// Writes an answer at the buffer's start and tells its length.
pub fn put_answer(out: &mut [u8], answer: LineAnswer) -> usize
    requires { most_answer ≤ length out.old }
    ensures { Wrote out.old 0 (response_text (answer_means answer)) out.new result }
{
    match answer {
        LineAnswer::Began => text::put_byte(out, 0, b'\n'),
        LineAnswer::Install(said) => put_install(out, said),
        LineAnswer::Call(said) => put_call(out, said),
        LineAnswer::Verdict(said) => put_verdict(out, said),
        LineAnswer::Malformed => answers::put_malformed(out, 0),
    }
}

// Whether an answer says that the line is malformed.
pub fn is_malformed(answer: LineAnswer) -> bool
    ensures { result ≡ is_malformed (answer_means answer) }
{
    matches!(answer, LineAnswer::Malformed)
}
