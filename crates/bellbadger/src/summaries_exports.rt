// Summaries, for C: the functions of the library c_summaries.
ghost use Rattle.std.specs.Prelude.{◌≡◌};
ghost use Rattle.summaries.specs.Summaries.{combine as combineOf, summarize_of, conclude_of};
ghost use Rattle.c_summaries.specs.Numbers.{summary_shown, conclude_shown};

use c_summaries::{ConcludeNumbers, SummaryNumbers};
use calls::Judge;
use summaries::Summary;

// The size of the summary that the library was built with.
#[unsafe(no_mangle)]
pub extern "C" fn bellbadger_summary_size() -> usize
    ensures { result ≡ 176 }
{
    c_summaries::bellbadger_summary_size()
}

// The summary of the chunk of that number.
#[unsafe(no_mangle)]
pub extern "C" fn bellbadger_summarize(judge: Judge, number: u64, chunk: &[u8]) -> SummaryNumbers
    ensures { result ≡ summary_shown (summarize_of judge number chunk.now) }
{
    c_summaries::bellbadger_summarize(judge, number, chunk)
}

// The summary of two chunks, or of two rows of chunks, one behind the other. Any two values
// combine.
#[unsafe(no_mangle)]
pub extern "C" fn bellbadger_summary_combine(earlier: Summary, later: Summary) -> Summary
    ensures { result ≡ combineOf earlier later }
{
    c_summaries::bellbadger_summary_combine(earlier, later)
}

// The report that the summary of a whole trace of so many chunks comes to.
#[unsafe(no_mangle)]
pub extern "C" fn bellbadger_summary_conclude(
    judge: Judge,
    summary: Summary,
    chunks: u64,
) -> ConcludeNumbers
    ensures { result ≡ conclude_shown (conclude_of judge summary chunks) }
{
    c_summaries::bellbadger_summary_conclude(judge, summary, chunks)
}
