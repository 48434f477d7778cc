// The judge for C and Rust. Answers are numbers; the state is a value that the caller keeps, hands
// in and gets back.
#![tactic(auto)]

ghost use Rattle.std.specs.Prelude.{◌≡◌, ◌+◌, ◌*◌};
ghost use Rattle.ruleformat.specs.Reader.{read_of};
ghost use Rattle.calls.specs.Replies.{report_means, install_outcome, call_outcome};
ghost use Rattle.calls.specs.mirror.Steps.{fresh, install_of, load_of, open_of, deliver_of, withdraw_of, report_of};
ghost use Rattle.replay.specs.Records.{record_in, replay_of};
ghost use Rattle.capi.specs.Numbers.{read_shown, install_shown, call_shown, deliver_shown, verdict_shown, replay_shown};

use automaton::Rule;
use calls::{CallResult, InstallResult, Judge, Report, Verdict};

// Accepted is 1 or 0; where it is 0, refused has the number, and every number of the rule is 0.
#[repr(C)]
#[derive(Clone, Copy)]
pub struct ReadNumbers {
    pub accepted: u8,
    pub refused: u8,
    pub rule: Rule,
}

// Of an installation and of a load.
#[repr(C)]
#[derive(Clone, Copy)]
pub struct InstallNumbers {
    pub accepted: u8,
    pub refused: u8,
    pub sets: u16,
    pub starts: u8,
    pub judge: Judge,
}

// Of opening and of withdrawing.
#[repr(C)]
#[derive(Clone, Copy)]
pub struct CallNumbers {
    pub accepted: u8,
    pub refused: u8,
    pub judge: Judge,
}

// Looked is the number of text bytes for which any successor was looked up, 0 where refused.
#[repr(C)]
#[derive(Clone, Copy)]
pub struct DeliverNumbers {
    pub accepted: u8,
    pub refused: u8,
    pub looked: u32,
    pub judge: Judge,
}

// Kind 0 refused with the number, 1 waiting with so many empty places, 2 yes and 3 no with the
// count. Beside yes and no the bytes of the text, and the quotient and remainder of the count by
// them; beside the others these are 0.
#[repr(C)]
#[derive(Clone, Copy)]
pub struct VerdictNumbers {
    pub kind: u8,
    pub number: u64,
    pub bytes: u64,
    pub quotient: u64,
    pub remainder: u64,
}

// As a verdict; kind 4: the line of that number is malformed.
#[repr(C)]
#[derive(Clone, Copy)]
pub struct ReplayNumbers {
    pub kind: u8,
    pub number: u64,
    pub bytes: u64,
    pub quotient: u64,
    pub remainder: u64,
}

// The version of these functions, and how many bytes a judge has as C lays it out.
const MAJOR: u32 = 5;

const MINOR: u32 = 8;

const STATE_SIZE: usize = 27832;

// The version that the library was built with: the major number times 65,536, and the minor one.
pub fn bellbadger_version() -> u32
    ensures { result ≡ 5 * 65536 + 8 }
{
    MAJOR * 65536 + MINOR
}

// The size of the judge that the library was built with.
pub fn bellbadger_state_size() -> usize
    ensures { result ≡ 27832 }
{
    STATE_SIZE
}

pub fn bellbadger_new() -> Judge
    ensures { result ≡ fresh }
{
    judge::new_judge()
}

// The rule in a file, by value; no judge is asked for.
pub fn bellbadger_read(file: &[u8]) -> ReadNumbers
    ensures { result ≡ read_shown (read_of file.now) }
{
    let reading = rulefile::read(file);
    let shown = flags::shown(&reading);
    let rule = match reading {
        Ok(rule) => rule,
        Err(_) => rulefile::no_rule(),
    };
    ReadNumbers {
        accepted: shown.accepted,
        refused: shown.refused,
        rule,
    }
}

// What an installation comes to, in the numbers that C is given.
fn install_numbers(res: InstallResult) -> InstallNumbers
    ensures { result ≡ install_shown (install_outcome res) }
{
    let judge = res.judge;
    match res.answer {
        Ok(sizes) => InstallNumbers {
            accepted: 1,
            refused: 0,
            sets: sizes.sets,
            starts: sizes.starts,
            judge,
        },
        Err(refusal) => InstallNumbers {
            accepted: 0,
            refused: refusal.number(),
            sets: 0,
            starts: 0,
            judge,
        },
    }
}

pub fn bellbadger_install(judge: Judge, rule: Rule) -> InstallNumbers
    ensures { result ≡ install_shown (install_of judge rule) }
{
    install_numbers(judge::install(judge, rule))
}

pub fn bellbadger_load(judge: Judge, file: &[u8]) -> InstallNumbers
    ensures { result ≡ install_shown (load_of judge file.now) }
{
    install_numbers(judge::load(judge, file))
}

// What opening and withdrawing come to, in the numbers that C is given.
fn call_numbers(res: CallResult) -> CallNumbers
    ensures { result ≡ call_shown (call_outcome res) }
{
    let shown = flags::shown(&res.answer);
    let judge = res.judge;
    CallNumbers {
        accepted: shown.accepted,
        refused: shown.refused,
        judge,
    }
}

pub fn bellbadger_open(judge: Judge, places: usize) -> CallNumbers
    ensures { result ≡ call_shown (open_of judge places) }
{
    call_numbers(judge::open(judge, places))
}

pub fn bellbadger_deliver(judge: Judge, place: usize, revision: u32, chunk: &[u8]) -> DeliverNumbers
    ensures { result ≡ deliver_shown (deliver_of judge place revision chunk.now) }
{
    let delivery = judge::deliver(judge, place, revision, chunk);
    let judge = delivery.judge;
    match delivery.answer {
        Ok(looked) => DeliverNumbers {
            accepted: 1,
            refused: 0,
            looked,
            judge,
        },
        Err(refusal) => DeliverNumbers {
            accepted: 0,
            refused: refusal.number(),
            looked: 0,
            judge,
        },
    }
}

pub fn bellbadger_withdraw(judge: Judge, place: usize) -> CallNumbers
    ensures { result ≡ call_shown (withdraw_of judge place) }
{
    call_numbers(judge::withdraw(judge, place))
}

// A report in the numbers that C is given.
fn shown(report: Report) -> VerdictNumbers
    ensures { result ≡ verdict_shown (report_means report) }
{
    let verdict = report.verdict;
    VerdictNumbers {
        kind: verdicts::kind_of(verdict),
        number: verdicts::number_of(verdict),
        bytes: report.bytes,
        quotient: report.quotient,
        remainder: report.remainder,
    }
}

pub fn bellbadger_verdict(judge: Judge) -> VerdictNumbers
    ensures { result ≡ verdict_shown (report_of judge) }
{
    shown(judge::ask_verdict(judge))
}

// The calls that the text records, and the verdict after them.
pub fn bellbadger_replay(text: &[u8]) -> ReplayNumbers
    ensures { result ≡ replay_shown (replay_of (record_in text.now)) }
{
    match replay::replay(text) {
        Ok(report) => {
            let told = shown(report);
            ReplayNumbers {
                kind: told.kind,
                number: told.number,
                bytes: told.bytes,
                quotient: told.quotient,
                remainder: told.remainder,
            }
        }
        Err(line) => ReplayNumbers {
            kind: 4,
            number: line as u64,
            bytes: 0,
            quotient: 0,
            remainder: 0,
        },
    }
}
