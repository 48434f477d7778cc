// A line of a text of calls of which a buffer has the beginning: read once, and answered on a judge.
#![tactic(auto)]

ghost use Rattle.std.specs.Prelude.{◌≡◌, ◌≤◌, length};
ghost use Rattle.std.proofs.Math.Option.{some};
ghost use Rattle.limits.specs.Limits.{bytes_room, answer_room};
ghost use Rattle.text.specs.Writing.{Wrote};
ghost use Rattle.fields.specs.Bytes.{parse_bytes};
ghost use Rattle.calls.specs.Replies.{judged};
ghost use Rattle.calls.specs.mirror.Steps.{report_of};
ghost use Rattle.calltext.specs.Meaning.{malformed, line_means, bytes_from};
ghost use Rattle.calltext.specs.Answers.{replied, response_text};
ghost use Rattle.callrun.specs.Running.{Scratch};
ghost use Rattle.diagnoses.specs.Diagnosing.{diagnosis_of};
ghost use Rattle.questions.specs.Meaning.{recorded, locate_by, meaning_by, query_means, query_from};
ghost use Rattle.questions.specs.Answers.{finding_text};
ghost use Rattle.linetexts.specs.Lists.{list_of};
ghost use Rattle.linebuffer.specs.Meanings.{line_told, HeldAs};

use calls::Judge;
use calltext::{Line, LineAnswer};
use longlines::Held;
use questions::{Query, TextLine};

// What a line was read as, and how many bytes of the buffer stand for it.
#[derive(Clone, Copy)]
pub struct ReadLine {
    pub line: TextLine,
    pub length: usize,
}

// Whether the list has ended, and how many bytes the answer has.
#[derive(Clone, Copy)]
pub struct Said {
    pub ended: bool,
    pub written: usize,
}

// The judge that a line leaves, whether the list has ended, and how many bytes the answer has.
#[derive(Clone, Copy)]
pub struct Answered {
    pub judge: Judge,
    pub ended: bool,
    pub written: usize,
}

// Takes a line that has ended apart, but for the bytes that it may carry. Beginnings of 131,124 bytes
// tell all lines apart that differ in their answers: `deliver `, 20 digits, a space, 20 digits, a
// space and the digits of 65,537 bytes. One byte more makes an odd rest even.
pub fn read_line(buffer: &[u8], held: Held) -> ReadLine
    ensures { HeldAs buffer.now held result }
{
    let seen = longlines::look(buffer, held);
    let length = seen.length;
    if seen.hex {
        let line = questions::parse(&buffer[..length]);
        return ReadLine { line, length };
    }
    ReadLine {
        line: TextLine::Runs(Line::Malformed),
        length,
    }
}

// The answer to a line that asks for the verdict: the judge stays where it is.
pub fn ask_verdict(judge: Judge, out: &mut [u8]) -> usize
    requires { answer_room ≤ length out.old }
    ensures { Wrote out.old 0 (response_text (replied (judged (report_of judge)))) out.new result }
{
    let said = judge::ask_verdict(judge);
    calltext::put_answer(out, LineAnswer::Verdict(said))
}

// The answer to a line that asks where the trace is lost.
fn ask_diagnosis(judge: Judge, out: &mut [u8]) -> usize
    requires { answer_room ≤ length out.old }
    ensures { Wrote out.old 0 (finding_text (diagnosis_of judge)) out.new result }
{
    let found = diagnoses::diagnose(judge);
    questions::put_diagnosis(out, found)
}

// The answer to a line that asks after how many bytes of a chunk it is. The bytes go through the
// lent buffer. A chunk longer than the buffer is refused by its length alone, so what does not fit
// is not missed.
fn ask_location(judge: Judge, place: u64, field: &[u8], bytes: &mut [u8], out: &mut [u8]) -> Said
    requires { (bytes_room ≤ length bytes.old) × (answer_room ≤ length out.old) }
    ensures ended_value { list_of judge result.ended ≡ (line_told judge (meaning_by (locate_by (some place) (parse_bytes field.now)) malformed)).state }
    ensures text { Wrote out.old 0 (line_told judge (meaning_by (locate_by (some place) (parse_bytes field.now)) malformed)).text out.new result.written }
    ensures scratch { Scratch bytes.old bytes.new }
{
    let Some(n) = fields::read_bytes(field, bytes) else {
        return Said {
            ended: true,
            written: answers::put_malformed(out, 0),
        };
    };
    let located = locating::locate(judge, place as usize, &bytes[..n]);
    Said {
        ended: false,
        written: questions::put_located(out, located),
    }
}

// A line that asks a question, with its answer at the start of `out`: the judge stays where it is.
// `bytes` is for the bytes that the line carries.
pub fn ask(judge: Judge, query: Query, line: &[u8], bytes: &mut [u8], out: &mut [u8]) -> Said
    requires { (query_from query ≤ length line.now) × (bytes_room ≤ length bytes.old) × (answer_room ≤ length out.old) }
    ensures ended_value { list_of judge result.ended ≡ (line_told judge (query_means line.now query)).state }
    ensures text { Wrote out.old 0 (line_told judge (query_means line.now query)).text out.new result.written }
    ensures scratch { Scratch bytes.old bytes.new }
{
    match query {
        Query::Diagnose => {
            let ended = false;
            let written = ask_diagnosis(judge, out);
            Said { ended, written }
        }
        Query::Locate(place, from) => ask_location(judge, place, &line[from..], bytes, out),
    }
}

// Any other line.
pub fn run(judge: Judge, parsed: Line, line: &[u8], bytes: &mut [u8], out: &mut [u8]) -> Answered
    requires { (bytes_from parsed ≤ length line.now) × (bytes_room ≤ length bytes.old) × (answer_room ≤ length out.old) }
    ensures ended_value { list_of result.judge result.ended ≡ (line_told judge (recorded (line_means line.now parsed))).state }
    ensures text { Wrote out.old 0 (line_told judge (recorded (line_means line.now parsed))).text out.new result.written }
    ensures scratch { Scratch bytes.old bytes.new }
{
    let run = callrun::run_parsed(judge, parsed, line, bytes);
    let said = run.answer;
    let ended = calltext::is_malformed(said);
    let written = calltext::put_answer(out, said);
    let judge = run.judge;
    Answered {
        judge,
        ended,
        written,
    }
}
