// The questions among the lines of a text of calls, which change nothing: what such a line means,
// and how its answer is written.
#![tactic(auto)]

ghost use Rattle.std.specs.Prelude.{◌≡◌, ◌≤◌, length, drop};
ghost use Rattle.limits.specs.Limits.{answer_room};
ghost use Rattle.text.specs.Writing.{Wrote};
ghost use Rattle.lines.specs.Splitting.{up_to, past};
ghost use Rattle.calltext.specs.Meaning.{malformed};
ghost use Rattle.diagnoses.specs.Diagnosing.{diagnosis_means};
ghost use Rattle.locating.specs.Locating.{located_means};
ghost use Rattle.questions.specs.Meaning.{is_word, locate_fields, meaning_by, text_means, text_from, Parsed};
ghost use Rattle.questions.specs.Answers.{finding_text, spot_text};

use base::Refusal;
use calltext::Line;
use diagnoses::Diagnosis;

// A question. The bytes of a chunk begin at the index beside its place.
#[derive(Clone, Copy)]
pub enum Query {
    Diagnose,
    Locate(u64, usize),
}

// A line of a text: it asks for the verdict or a question, which change nothing, or it is run.
#[derive(Clone, Copy)]
pub enum TextLine {
    Verdict,
    Asks(Query),
    Runs(Line),
}

// Whether the line is the word.
fn is_word(line: &[u8], word: &[u8]) -> bool
    ensures { result ≡ is_word word.now line.now }
{
    if line.len() != word.len() {
        return false;
    }
    lines::begins_with(line, word)
}

// A place up to the next space, and bytes behind it.
fn location(line: &[u8]) -> TextLine
    requires { 7 ≤ length line.now }
    ensures { (text_from result ≤ length line.now) × (text_means line.now result ≡ meaning_by (locate_fields (up_to 32 (drop 7 line.now)) (past 32 (drop 7 line.now))) malformed) }
{
    let space = lines::find(line, 7, b' ');
    if line.len() <= space {
        return TextLine::Runs(Line::Malformed);
    }
    let Some(place) = fields::read_number(&line[7..space]) else {
        return TextLine::Runs(Line::Malformed);
    };
    TextLine::Asks(Query::Locate(place, space + 1))
}

// Takes a line apart, but for the bytes that it may carry.
pub fn parse(line: &[u8]) -> TextLine
    ensures { Parsed line.now result }
{
    if is_word(line, b"verdict") {
        return TextLine::Verdict;
    }
    if is_word(line, b"diagnose") {
        return TextLine::Asks(Query::Diagnose);
    }
    if lines::begins_with(line, b"locate ") {
        return location(line);
    }
    TextLine::Runs(calltext::parse(line))
}

// Writes a diagnosis at the buffer's start and tells its length.
pub fn put_diagnosis(out: &mut [u8], diagnosis: Result<Diagnosis, Refusal>) -> usize
    requires { answer_room ≤ length out.old }
    ensures { Wrote out.old 0 (finding_text (diagnosis_means diagnosis)) out.new result }
{
    match diagnosis {
        Ok(Diagnosis::Lost(place)) => {
            let numbers = [place as u64];
            answers::put_line(out, 0, b"lost", &numbers)
        }
        Ok(Diagnosis::Open(places)) => {
            let numbers = [places as u64];
            answers::put_line(out, 0, b"open", &numbers)
        }
        Err(refusal) => answers::put_refused(out, 0, refusal.number()),
    }
}

// Writes what was located at the buffer's start and tells its length.
pub fn put_located(out: &mut [u8], located: Result<Option<u32>, Refusal>) -> usize
    requires { answer_room ≤ length out.old }
    ensures { Wrote out.old 0 (spot_text (located_means located)) out.new result }
{
    match located {
        Ok(Some(bytes)) => {
            let numbers = [bytes as u64];
            answers::put_line(out, 0, b"after", &numbers)
        }
        Ok(None) => text::put_bytes(out, 0, b"nowhere\n"),
        Err(refusal) => answers::put_refused(out, 0, refusal.number()),
    }
}
