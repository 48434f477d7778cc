// What the verdict of a judge is, and what is reported with it.
#![tactic(auto)]

ghost use Rattle.std.specs.Prelude.{◌≡◌};
ghost use Rattle.calls.specs.Replies.{verdict_means, report_means};
ghost use Rattle.calls.specs.Calls.{per_byte, alone, report_by};
ghost use Rattle.calls.specs.mirror.Steps.{verdict_of};
ghost use Rattle.verdicts.specs.Shown.{kind_of, number_of};

use base::Refusal;
use calls::{Judge, Report, Verdict};

// Waiting with the number of empty places; or yes or no with the count.
pub fn find_verdict(judge: Judge) -> Verdict
    ensures { verdict_means result ≡ verdict_of judge }
{
    let board = judge.board;
    if board.places == 0 {
        return Verdict::Refused(Refusal::NoBoard);
    }
    let empty = board::empty_places(&board.filled, board.places);
    if empty != 0 {
        return Verdict::Waiting(empty);
    }
    let count = board::summed(&board.counts, board.places);
    let built = judge.built;
    let delegates = built.delegates;
    if joins::says_yes(board, delegates, built.n, built.initials, built.finals) {
        Verdict::Yes(count)
    } else {
        Verdict::No(count)
    }
}

// The verdict with the bytes of the text, and the quotient and remainder of the count by them.
fn report_by_bytes(verdict: Verdict, count: u64, bytes: u64) -> Report
    ensures { report_means result ≡ per_byte (verdict_means verdict) count bytes }
{
    if bytes == 0 {
        return Report {
            verdict,
            bytes,
            quotient: 0,
            remainder: 0,
        };
    }
    Report {
        verdict,
        bytes,
        quotient: count / bytes,
        remainder: count % bytes,
    }
}

// The verdict with three zeros.
fn report_alone(verdict: Verdict) -> Report
    ensures { report_means result ≡ alone (verdict_means verdict) }
{
    Report {
        verdict,
        bytes: 0,
        quotient: 0,
        remainder: 0,
    }
}

// What is reported beside the verdict, where the text has so many bytes.
pub fn report_on(verdict: Verdict, bytes: u64) -> Report
    ensures { report_means result ≡ report_by (verdict_means verdict) bytes }
{
    match verdict {
        Verdict::Waiting(_) => report_alone(verdict),
        Verdict::Yes(count) => report_by_bytes(verdict, count, bytes),
        Verdict::No(count) => report_by_bytes(verdict, count, bytes),
        Verdict::Refused(_) => report_alone(verdict),
    }
}

// Which of the four a verdict is, as C is told.
pub fn kind_of(verdict: Verdict) -> u8
    ensures { result ≡ kind_of (verdict_means verdict) }
{
    match verdict {
        Verdict::Refused(_) => 0,
        Verdict::Waiting(_) => 1,
        Verdict::Yes(_) => 2,
        Verdict::No(_) => 3,
    }
}

// The number that a verdict has.
pub fn number_of(verdict: Verdict) -> u64
    ensures { result ≡ number_of (verdict_means verdict) }
{
    match verdict {
        Verdict::Refused(refusal) => refusal.number() as u64,
        Verdict::Waiting(empty) => empty as u64,
        Verdict::Yes(count) => count,
        Verdict::No(count) => count,
    }
}
