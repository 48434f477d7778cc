// Summaries for C, Rust and Python. Answers are numbers; a summary is a value that the caller
// keeps, sends and hands in. Of the judge only its rule is looked at, which every machine loads for
// itself.
#![tactic(auto)]

ghost use Rattle.std.specs.Prelude.{◌≡◌};
ghost use Rattle.calls.specs.Replies.{report_means};
ghost use Rattle.summaries.specs.Summaries.{combine as combineOf, no_summary, summarize_of, conclude_of};
ghost use Rattle.c_summaries.specs.Numbers.{summary_shown, conclude_shown};

use calls::{Judge, Report, Verdict};
use summaries::Summary;

// Accepted is 1 or 0; where it is 0, refused has the number, and the summary is broken, with zeros
// in every other field.
#[repr(C)]
#[derive(Clone, Copy)]
pub struct SummaryNumbers {
    pub accepted: u8,
    pub refused: u8,
    pub summary: Summary,
}

// Kind 0 refused with the number; 2 yes and 3 no with the count, as a verdict's, with the bytes of
// the text, and the quotient and remainder of the count by them.
#[repr(C)]
#[derive(Clone, Copy)]
pub struct ConcludeNumbers {
    pub kind: u8,
    pub number: u64,
    pub bytes: u64,
    pub quotient: u64,
    pub remainder: u64,
}

// How many bytes a summary has as C lays it out.
const SUMMARY_SIZE: usize = 176;

// The size of the summary that the library was built with.
pub fn bellbadger_summary_size() -> usize
    ensures { result ≡ 176 }
{
    SUMMARY_SIZE
}

// Zeros, and broken.
fn no_summary() -> Summary
    ensures { result ≡ no_summary }
{
    let leads = [0u32; limits::STATES];
    Summary {
        leads,
        count: 0,
        bytes: 0,
        rule: 0,
        first: 0,
        end: 0,
        broken: 1,
    }
}

// The summary of the chunk of that number.
pub fn bellbadger_summarize(judge: Judge, number: u64, chunk: &[u8]) -> SummaryNumbers
    ensures { result ≡ summary_shown (summarize_of judge number chunk.now) }
{
    let made = summaries::summarize(judge, number, chunk);
    let shown = flags::shown(&made);
    match made {
        Ok(summary) => SummaryNumbers {
            accepted: shown.accepted,
            refused: shown.refused,
            summary,
        },
        Err(_) => {
            let summary = no_summary();
            SummaryNumbers {
                accepted: shown.accepted,
                refused: shown.refused,
                summary,
            }
        }
    }
}

// The summary of two chunks, or of two rows of chunks, one behind the other. Any two values
// combine.
pub fn bellbadger_summary_combine(earlier: Summary, later: Summary) -> Summary
    ensures { result ≡ combineOf earlier later }
{
    summaries::combine(earlier, later)
}

fn shown(report: Report) -> ConcludeNumbers
    ensures { result ≡ conclude_shown (report_means report) }
{
    ConcludeNumbers {
        kind: verdicts::kind_of(report.verdict),
        number: verdicts::number_of(report.verdict),
        bytes: report.bytes,
        quotient: report.quotient,
        remainder: report.remainder,
    }
}

// The report that the summary of a whole trace of so many chunks comes to.
pub fn bellbadger_summary_conclude(judge: Judge, summary: Summary, chunks: u64) -> ConcludeNumbers
    ensures { result ≡ conclude_shown (conclude_of judge summary chunks) }
{
    shown(summaries::conclude(judge, summary, chunks))
}
