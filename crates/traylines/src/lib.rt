// Runs the call that a line of `trayjudge` makes on a tray, or reads the rule file that it has and
// installs the rule.
#![tactic(auto)]

ghost use Rattle.std.specs.Prelude.{◌≡◌, ◌≤◌, length};
ghost use Rattle.std.proofs.Math.Option.{some};
ghost use Rattle.fields.specs.Bytes.{parse_bytes};
ghost use Rattle.trays.specs.Calls.{opens, withdraws, asks_verdict};
ghost use Rattle.trays.specs.mirror.Steps.{install_outcome};
ghost use Rattle.traytext.specs.Lines.{again, call, malformed, deliver_by, line_in};
ghost use Rattle.traylines.specs.Running.{bytes_room, file_by, load_of, line_step, run_outcome, Scratch};

use trays::{InstallResult, Tray};
use traytext::{Line, LineAnswer};

// Room for the bytes that a line carries: one more than a rule file has at most, and so many more
// than a band.
pub const BYTES: usize = limits::FILE + 1;

// Reads a rule file and installs the rule, for the rows or for the columns.
fn load(tray: Tray, rows: bool, file: &[u8]) -> InstallResult
    ensures { install_outcome result ≡ load_of rows tray file.now }
{
    match rulefile::read(file) {
        Err(refusal) => InstallResult {
            answer: Err(refusal),
            tray,
        },
        Ok(rule) => {
            if rows {
                traycalls::install_row(tray, rule)
            } else {
                traycalls::install_column(tray, rule)
            }
        }
    }
}

// What a line is answered, and the tray that it leaves.
#[derive(Clone, Copy)]
pub struct LineRun {
    pub answer: LineAnswer,
    pub tray: Tray,
}

// A malformed line changes nothing.
pub fn run_malformed(tray: Tray) -> LineRun
    ensures { run_outcome result ≡ line_step tray malformed }
{
    let answer = LineAnswer::Malformed;
    LineRun { answer, tray }
}

fn run_empty(tray: Tray) -> LineRun
    ensures { run_outcome result ≡ line_step tray again }
{
    let answer = LineAnswer::Began;
    let tray = traycalls::new_tray();
    LineRun { answer, tray }
}

// The bytes go through the lent buffer. What is longer than the buffer is refused by its length
// alone, so what does not fit is not missed.
fn run_file(tray: Tray, rows: bool, field: &[u8], buffer: &mut [u8]) -> LineRun
    requires { bytes_room ≤ length buffer.old }
    ensures result_value { run_outcome result ≡ line_step tray (file_by rows (parse_bytes field.now)) }
    ensures scratch { Scratch buffer.old buffer.new }
{
    match fields::read_bytes(field, buffer) {
        None => run_malformed(tray),
        Some(n) => {
            let loading = load(tray, rows, &buffer[..n]);
            let answer = LineAnswer::Install(loading.answer);
            let tray = loading.tray;
            LineRun { answer, tray }
        }
    }
}

fn run_open(tray: Tray, width: u64, bands: u64) -> LineRun
    ensures { run_outcome result ≡ line_step tray (call (opens width bands)) }
{
    let opening = traycalls::open(tray, width as usize, bands as usize);
    let answer = LineAnswer::Call(opening.answer);
    let tray = opening.tray;
    LineRun { answer, tray }
}

fn run_deliver(tray: Tray, band: u64, field: &[u8], buffer: &mut [u8]) -> LineRun
    requires { bytes_room ≤ length buffer.old }
    ensures result_value { run_outcome result ≡ line_step tray (deliver_by (some band) (parse_bytes field.now)) }
    ensures scratch { Scratch buffer.old buffer.new }
{
    match fields::read_bytes(field, buffer) {
        None => run_malformed(tray),
        Some(n) => {
            let delivery = traycalls::deliver(tray, band as usize, &buffer[..n]);
            let answer = LineAnswer::Call(delivery.answer);
            let tray = delivery.tray;
            LineRun { answer, tray }
        }
    }
}

fn run_withdraw(tray: Tray, band: u64) -> LineRun
    ensures { run_outcome result ≡ line_step tray (call (withdraws band)) }
{
    let withdrawal = traycalls::withdraw(tray, band as usize);
    let answer = LineAnswer::Call(withdrawal.answer);
    let tray = withdrawal.tray;
    LineRun { answer, tray }
}

fn run_verdict(tray: Tray) -> LineRun
    ensures { run_outcome result ≡ line_step tray (call asks_verdict) }
{
    let said = traycalls::ask_verdict(tray);
    let answer = LineAnswer::Verdict(said);
    LineRun { answer, tray }
}

// One line. The buffer is for the bytes that the line carries.
pub fn run_line(tray: Tray, line: &[u8], buffer: &mut [u8]) -> LineRun
    requires { bytes_room ≤ length buffer.old }
    ensures result_value { run_outcome result ≡ line_step tray (line_in line.now) }
    ensures scratch { Scratch buffer.old buffer.new }
{
    let parsed = traytext::parse(line);
    match parsed {
        Line::Empty => run_empty(tray),
        Line::Row => run_file(tray, true, &line[4..], buffer),
        Line::Column => run_file(tray, false, &line[7..], buffer),
        Line::Open(width, bands) => run_open(tray, width, bands),
        Line::Deliver(band, from) => run_deliver(tray, band, &line[from..], buffer),
        Line::Withdraw(band) => run_withdraw(tray, band),
        Line::Verdict => run_verdict(tray),
        Line::Malformed => run_malformed(tray),
    }
}
