// Runs the call that a line records on a judge.
#![tactic(auto)]

ghost use Rattle.std.specs.Prelude.{◌≡◌, ◌≤◌, length};
ghost use Rattle.std.proofs.Math.Option.{some};
ghost use Rattle.limits.specs.Limits.{bytes_room};
ghost use Rattle.fields.specs.Bytes.{parse_bytes};
ghost use Rattle.calls.specs.Calls.{opens, withdraws, asks_verdict};
ghost use Rattle.calltext.specs.Meaning.{again, call, malformed, load_by, install_by, deliver_by, line_in, line_means, bytes_from};
ghost use Rattle.callrun.specs.Running.{line_step, run_outcome, Scratch};

use calls::Judge;
use calltext::{Line, LineAnswer};

// What a line is answered, and the judge that it leaves.
#[derive(Clone, Copy)]
pub struct LineRun {
    pub answer: LineAnswer,
    pub judge: Judge,
}

// A malformed line changes nothing.
fn run_malformed(judge: Judge) -> LineRun
    ensures { run_outcome result ≡ line_step judge malformed }
{
    LineRun {
        answer: LineAnswer::Malformed,
        judge,
    }
}

fn run_empty(judge: Judge) -> LineRun
    ensures { run_outcome result ≡ line_step judge again }
{
    let judge = judge::new_judge();
    LineRun {
        answer: LineAnswer::Began,
        judge,
    }
}

// The bytes go through the lent buffer. What is longer than the buffer is refused by its length
// alone, so what does not fit is not missed.
fn run_load(judge: Judge, field: &[u8], buffer: &mut [u8]) -> LineRun
    requires { bytes_room ≤ length buffer.old }
    ensures result_value { run_outcome result ≡ line_step judge (load_by (parse_bytes field.now)) }
    ensures scratch { Scratch buffer.old buffer.new }
{
    let Some(n) = fields::read_bytes(field, buffer) else {
        return run_malformed(judge);
    };
    let loading = judge::load(judge, &buffer[..n]);
    let judge = loading.judge;
    LineRun {
        answer: LineAnswer::Install(loading.answer),
        judge,
    }
}

// Installs the rule that the bytes state; any other number of bytes than 2,058 is malformed.
fn install_bytes(judge: Judge, bytes: &[u8]) -> LineRun
    ensures { run_outcome result ≡ line_step judge (install_by (some bytes.now)) }
{
    if bytes.len() != limits::PACKED {
        return run_malformed(judge);
    }
    let installing = judge::install(judge, packed::unpack(bytes));
    let judge = installing.judge;
    LineRun {
        answer: LineAnswer::Install(installing.answer),
        judge,
    }
}

// What does not fit the buffer has more than 2,058 bytes and is malformed.
fn run_install(judge: Judge, field: &[u8], buffer: &mut [u8]) -> LineRun
    requires { bytes_room ≤ length buffer.old }
    ensures result_value { run_outcome result ≡ line_step judge (install_by (parse_bytes field.now)) }
    ensures scratch { Scratch buffer.old buffer.new }
{
    let Some(n) = fields::read_bytes(field, buffer) else {
        return run_malformed(judge);
    };
    install_bytes(judge, &buffer[..n])
}

fn run_open(judge: Judge, places: u64) -> LineRun
    ensures { run_outcome result ≡ line_step judge (call (opens places)) }
{
    let opening = judge::open(judge, places as usize);
    let judge = opening.judge;
    LineRun {
        answer: LineAnswer::Open(opening.answer),
        judge,
    }
}

fn run_deliver(judge: Judge, place: u64, revision: u32, field: &[u8], buffer: &mut [u8]) -> LineRun
    requires { bytes_room ≤ length buffer.old }
    ensures result_value { run_outcome result ≡ line_step judge (deliver_by (some place) (some revision) (parse_bytes field.now)) }
    ensures scratch { Scratch buffer.old buffer.new }
{
    let Some(n) = fields::read_bytes(field, buffer) else {
        return run_malformed(judge);
    };
    let delivery = judge::deliver(judge, place as usize, revision, &buffer[..n]);
    let judge = delivery.judge;
    LineRun {
        answer: LineAnswer::Deliver(delivery.answer),
        judge,
    }
}

fn run_withdraw(judge: Judge, place: u64) -> LineRun
    ensures { run_outcome result ≡ line_step judge (call (withdraws place)) }
{
    let withdrawal = judge::withdraw(judge, place as usize);
    let judge = withdrawal.judge;
    LineRun {
        answer: LineAnswer::Withdraw(withdrawal.answer),
        judge,
    }
}

fn run_verdict(judge: Judge) -> LineRun
    ensures { run_outcome result ≡ line_step judge (call asks_verdict) }
{
    let said = judge::ask_verdict(judge);
    LineRun {
        answer: LineAnswer::Verdict(said),
        judge,
    }
}

// The call of a line that was parsed. The buffer is for the bytes that the line carries.
pub fn run_parsed(judge: Judge, parsed: Line, line: &[u8], buffer: &mut [u8]) -> LineRun
    requires { (bytes_from parsed ≤ length line.now) × (bytes_room ≤ length buffer.old) }
    ensures result_value { run_outcome result ≡ line_step judge (line_means line.now parsed) }
    ensures scratch { Scratch buffer.old buffer.new }
{
    match parsed {
        Line::Empty => run_empty(judge),
        Line::Load => run_load(judge, &line[5..], buffer),
        Line::Install => run_install(judge, &line[8..], buffer),
        Line::Open(places) => run_open(judge, places),
        Line::Deliver(place, revision, from) => run_deliver(
            judge,
            place,
            revision,
            &line[from..],
            buffer,
        ),
        Line::Withdraw(place) => run_withdraw(judge, place),
        Line::Verdict => run_verdict(judge),
        Line::Malformed => run_malformed(judge),
    }
}

// One line.
pub fn run_line(judge: Judge, line: &[u8], buffer: &mut [u8]) -> LineRun
    requires { bytes_room ≤ length buffer.old }
    ensures result_value { run_outcome result ≡ line_step judge (line_in line.now) }
    ensures scratch { Scratch buffer.old buffer.new }
{
    let parsed = calltext::parse(line);
    run_parsed(judge, parsed, line, buffer)
}
