// Trays for C and Rust. Answers are numbers; a tray is a value that the caller keeps, hands in and
// gets back.
#![tactic(auto)]

ghost use Rattle.std.specs.Prelude.{◌≡◌};
ghost use Rattle.trays.specs.Replies.{verdict_means};
ghost use Rattle.trays.specs.mirror.Steps.{fresh, install_outcome, call_outcome, install_row_of, install_column_of, open_of, deliver_of, withdraw_of, verdict_of};
ghost use Rattle.c_trays.specs.Numbers.{install_shown, call_shown, kind_of, number_of, verdict_shown};

use automaton::Rule;
use trays::{CallResult, InstallResult, Tray, TrayVerdict};

// Of either installation. Accepted is 1 or 0; where it is 0, refused has the number, sets and
// starts are 0, and the tray is the one that came.
#[repr(C)]
#[derive(Clone, Copy)]
pub struct InstallNumbers {
    pub accepted: u8,
    pub refused: u8,
    pub sets: u16,
    pub starts: u8,
    pub tray: Tray,
}

// Of an opening, a delivery and a withdrawal.
#[repr(C)]
#[derive(Clone, Copy)]
pub struct CallNumbers {
    pub accepted: u8,
    pub refused: u8,
    pub tray: Tray,
}

// Kind 0 refused with the number, 1 waiting with so many empty bands, 2 yes and 3 no with 0.
#[repr(C)]
#[derive(Clone, Copy)]
pub struct VerdictNumbers {
    pub kind: u8,
    pub number: u8,
}

// How many bytes a tray has as C lays it out.
const TRAY_SIZE: usize = 12332;

// The size of the tray that the library was built with.
pub fn bellbadger_tray_size() -> usize
    ensures { result ≡ 12332 }
{
    TRAY_SIZE
}

pub fn bellbadger_tray_new() -> Tray
    ensures { result ≡ fresh }
{
    traycalls::new_tray()
}

// What an installation comes to, in the numbers that C is given.
fn install_numbers(res: InstallResult) -> InstallNumbers
    ensures { result ≡ install_shown (install_outcome res) }
{
    let tray = res.tray;
    match res.answer {
        Ok(sizes) => InstallNumbers {
            accepted: 1,
            refused: 0,
            sets: sizes.sets,
            starts: sizes.starts,
            tray,
        },
        Err(refusal) => InstallNumbers {
            accepted: 0,
            refused: refusal.number(),
            sets: 0,
            starts: 0,
            tray,
        },
    }
}

pub fn bellbadger_tray_install_row(tray: Tray, rule: Rule) -> InstallNumbers
    ensures { result ≡ install_shown (install_row_of tray rule) }
{
    install_numbers(traycalls::install_row(tray, rule))
}

pub fn bellbadger_tray_install_column(tray: Tray, rule: Rule) -> InstallNumbers
    ensures { result ≡ install_shown (install_column_of tray rule) }
{
    install_numbers(traycalls::install_column(tray, rule))
}

// What an opening, a delivery or a withdrawal comes to, in the numbers that C is given.
fn call_numbers(res: CallResult) -> CallNumbers
    ensures { result ≡ call_shown (call_outcome res) }
{
    let shown = flags::shown(&res.answer);
    let tray = res.tray;
    CallNumbers {
        accepted: shown.accepted,
        refused: shown.refused,
        tray,
    }
}

pub fn bellbadger_tray_open(tray: Tray, width: usize, bands: usize) -> CallNumbers
    ensures { result ≡ call_shown (open_of tray width bands) }
{
    call_numbers(traycalls::open(tray, width, bands))
}

pub fn bellbadger_tray_deliver(tray: Tray, band: usize, rows: &[u8]) -> CallNumbers
    ensures { result ≡ call_shown (deliver_of tray band rows.now) }
{
    call_numbers(traycalls::deliver(tray, band, rows))
}

pub fn bellbadger_tray_withdraw(tray: Tray, band: usize) -> CallNumbers
    ensures { result ≡ call_shown (withdraw_of tray band) }
{
    call_numbers(traycalls::withdraw(tray, band))
}

// Which of the four a verdict is, and the number that it has.
fn kind_of(verdict: TrayVerdict) -> u8
    ensures { result ≡ kind_of (verdict_means verdict) }
{
    match verdict {
        TrayVerdict::Refused(_) => 0,
        TrayVerdict::Waiting(_) => 1,
        TrayVerdict::Yes => 2,
        TrayVerdict::No => 3,
    }
}

fn number_of(verdict: TrayVerdict) -> u8
    ensures { result ≡ number_of (verdict_means verdict) }
{
    match verdict {
        TrayVerdict::Refused(refusal) => refusal.number(),
        TrayVerdict::Waiting(empty) => empty,
        TrayVerdict::Yes => 0,
        TrayVerdict::No => 0,
    }
}

pub fn bellbadger_tray_verdict(tray: Tray) -> VerdictNumbers
    ensures { result ≡ verdict_shown (verdict_of tray) }
{
    let verdict = traycalls::ask_verdict(tray);
    VerdictNumbers {
        kind: kind_of(verdict),
        number: number_of(verdict),
    }
}
