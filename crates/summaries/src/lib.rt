// Summaries: a chunk is run by itself, on whatever machine, and what it comes to is a value; two
// such values are combined into that of both chunks, one behind the other, and the last one is
// concluded. Any value is taken.
#![tactic(auto)]

ghost use Rattle.std.specs.Prelude.{◌≡◌, cond, ◌+◌, ltb};
ghost use Rattle.base.specs.Answers.{refusal_number};
ghost use Rattle.limits.specs.Limits.{most_states, largest_number};
ghost use Rattle.compositions.specs.Relations.{image_of};
ghost use Rattle.calls.specs.Calls.{alone};
ghost use Rattle.calls.specs.Replies.{refused_with, verdict_means, report_means};
ghost use Rattle.summaries.specs.Summaries.{capped, follows as followsIt, combine as combineOf, place_of, leads_of, made_from, summary_outcome, summarize_of, said_by, conclude_of};

use base::Refusal;
use build::Built;
use calls::{Judge, Report, Verdict};
use chunks::Runs;

// For each state that was run the mask of the delegates of its end set's members, 0 for every other
// state; the count and the number of text bytes, of which 2^64 - 1 says that many or more; the
// digest of the rule; the number of the first chunk, and the number after the last one. Broken is 0
// where it is whole; any other number says that it is not of one trace.
#[repr(C)]
#[derive(Clone, Copy)]
pub struct Summary {
    pub leads: [u32; limits::STATES],
    pub count: u64,
    pub bytes: u64,
    pub rule: u64,
    pub first: u64,
    pub end: u64,
    pub broken: u8,
}

// The union of the leads of the set's members.
fn image(leads: &[u32; limits::STATES], set: u32) -> u32
    ensures { result ≡ image_of most_states leads.now set }
{
    let cells: &[u32] = leads;
    let mut q: usize = 0;
    let mut rest = set;
    let mut out: u32 = 0;
    while rest != 0 {
        if rest & 1 == 1 {
            out = out | cells[q];
        }
        rest = rest >> 1;
        q += 1;
    }
    out
}

// The sum, but no more than 2^64 - 1.
fn sum_capped(x: u64, y: u64) -> u64
    ensures { result ≡ capped (x + y) }
{
    if limits::NUMBER - y < x {
        return limits::NUMBER;
    }
    x + y
}

// 0 where the later summary may stand behind the earlier one: neither is broken, and it begins
// where that one ends, by the same rule; else 1.
fn gap(earlier: Summary, later: Summary) -> u8
    ensures { result ≡ cond (followsIt earlier later) 0 1 }
{
    if earlier.broken != 0 {
        return 1;
    }
    if later.broken != 0 {
        return 1;
    }
    if earlier.end != later.first {
        return 1;
    }
    if earlier.rule != later.rule {
        return 1;
    }
    0
}

// The summary of two chunks, or of two rows of chunks, one behind the other. Any two values
// combine, and no rule is asked for.
pub fn combine(earlier: Summary, later: Summary) -> Summary
    ensures { result ≡ combineOf earlier later }
{
    let first = earlier.leads;
    let second = later.leads;
    let mut leads = [0u32; limits::STATES];
    for (q, lead) in first.iter().enumerate() {
        leads[q] = image(&second, *lead);
    }
    Summary {
        leads,
        count: sum_capped(earlier.count, later.count),
        bytes: sum_capped(earlier.bytes, later.bytes),
        rule: earlier.rule,
        first: earlier.first,
        end: later.end,
        broken: gap(earlier, later),
    }
}

// The place that a chunk is run as at: 0 for chunk 0, 1 for any other.
fn place_of(number: u64) -> usize
    ensures { result ≡ place_of number }
{
    if number == 0 { 0 } else { 1 }
}

// 0, but 1 for the largest number, which has none after it.
fn last_number(number: u64) -> u8
    ensures { result ≡ cond (ltb number largest_number) 0 1 }
{
    if number < limits::NUMBER { 0 } else { 1 }
}

// The delegates of the members of each end set.
fn leads_of(
    delegates: [u8; limits::STATES],
    n: u8,
    ends: [u32; limits::STATES],
) -> [u32; limits::STATES]
    ensures { result ≡ leads_of delegates n ends }
{
    let mut leads = [0u32; limits::STATES];
    for (q, end) in ends.iter().enumerate() {
        leads[q] = chunks::delegate_mask(delegates, n, *end);
    }
    leads
}

// The summary of the chunk of that number, which was run.
fn summary_of(built: Built, number: u64, runs: Runs) -> Summary
    ensures { result ≡ made_from built number runs }
{
    let delegates = built.delegates;
    let ends = runs.ends;
    Summary {
        leads: leads_of(delegates, built.n, ends),
        count: runs.count as u64,
        bytes: runs.bytes as u64,
        rule: digests::digest(built),
        first: number,
        end: sum_capped(number, 1),
        broken: last_number(number),
    }
}

// The summary of the chunk of that number, by the judge's rule: of its text, which is the chunk
// without its idle marks. Chunk 0 is run from the delegates of initial states, any other from all
// starts. Refused with 20 without a rule, 12 and 13.
pub fn summarize(judge: Judge, number: u64, chunk: &[u8]) -> Result<Summary, Refusal>
    ensures { summary_outcome result ≡ summarize_of judge number chunk.now }
{
    let built = judge.built;
    if built.n == 0 {
        return Err(Refusal::NoRule);
    }
    if limits::CHUNK < chunk.len() {
        return Err(Refusal::LongChunk);
    }
    let delegates = built.delegates;
    let mask = chunks::run_mask(delegates, built.n, built.initials, place_of(number));
    let runs = deliveries::run_delivery(
        &built.sets,
        &built.next,
        &built.singles,
        mask,
        built.k,
        false,
        chunk,
    )?;
    Ok(summary_of(built, number, runs))
}

// Refused, and three zeros.
fn refuse_report(refusal: Refusal) -> Report
    ensures { report_means result ≡ alone (refused_with (refusal_number refusal)) }
{
    verdicts::report_on(Verdict::Refused(refusal), 0)
}

fn verdict_of(yes: bool, count: u64) -> Verdict
    ensures { verdict_means result ≡ said_by yes count }
{
    if yes {
        return Verdict::Yes(count);
    }
    Verdict::No(count)
}

// The report that the summary of a whole trace of so many chunks comes to, by the judge's rule.
// Refused with 20 without a rule; 42 where the summary is broken or does not begin with chunk 0; 43
// where it is of another rule; 44 where it is not of so many chunks, or of none.
pub fn conclude(judge: Judge, summary: Summary, chunks: u64) -> Report
    ensures { report_means result ≡ conclude_of judge summary chunks }
{
    let built = judge.built;
    if built.n == 0 {
        return refuse_report(Refusal::NoRule);
    }
    if summary.broken != 0 {
        return refuse_report(Refusal::BrokenSummary);
    }
    if summary.first != 0 {
        return refuse_report(Refusal::BrokenSummary);
    }
    if summary.rule != digests::digest(built) {
        return refuse_report(Refusal::OtherRule);
    }
    if chunks == 0 {
        return refuse_report(Refusal::MissingEnd);
    }
    if summary.end != chunks {
        return refuse_report(Refusal::MissingEnd);
    }
    let delegates = built.delegates;
    let leads = summary.leads;
    let set = image(
        &leads,
        chunks::delegate_mask(delegates, built.n, built.initials),
    );
    let verdict = verdict_of(masks::meets(set, built.finals), summary.count);
    verdicts::report_on(verdict, summary.bytes)
}
