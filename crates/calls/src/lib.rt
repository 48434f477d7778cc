// The state of the judge and the answers of its calls. The outcome of each call is in specs/;
// crates/judge has the calls.
#![tactic(auto)]

use base::Refusal;
use board::Board;
use build::Built;

// The state. A rule is there when built.n is not 0, a board when board.places is not 0; in a fresh
// judge every number is 0.
#[repr(C)]
#[derive(Clone, Copy)]
pub struct Judge {
    pub built: Built,
    pub board: Board,
}

// So many places are empty; or yes or no, with the count; or there is no board.
#[derive(Clone, Copy, Debug, PartialEq, Eq)]
pub enum Verdict {
    Waiting(u8),
    Yes(u64),
    No(u64),
    Refused(Refusal),
}

// What the call verdict reports: the verdict; beside yes or no also the number of text bytes, the
// whole quotient of the count by it and the remainder, beside waiting or a refusal three zeros.
#[derive(Clone, Copy)]
pub struct Report {
    pub verdict: Verdict,
    pub bytes: u64,
    pub quotient: u64,
    pub remainder: u64,
}

// How many sets an installed rule has, and how many starts: M.
#[derive(Clone, Copy, Debug, PartialEq, Eq)]
pub struct Sizes {
    pub sets: u16,
    pub starts: u8,
}

// Each call that may change the state answers with the next state beside the answer.
// Of installing a rule and of loading a file.
#[derive(Clone, Copy)]
pub struct InstallResult {
    pub answer: Result<Sizes, Refusal>,
    pub judge: Judge,
}

// Of opening and of withdrawing.
#[derive(Clone, Copy)]
pub struct CallResult {
    pub answer: Result<(), Refusal>,
    pub judge: Judge,
}

// Of a delivery: the number of text bytes for which any successor was looked up.
#[derive(Clone, Copy)]
pub struct DeliverResult {
    pub answer: Result<u32, Refusal>,
    pub judge: Judge,
}
