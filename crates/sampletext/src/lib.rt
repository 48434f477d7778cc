// Prints the samples of a rule into a lent buffer.
#![tactic(auto)]

ghost use Rattle.std.specs.Prelude.{◌≡◌, [], ◌∷◌, ◌++◌, ◌+◌, ◌*◌, ◌≤◌, length};
ghost use Rattle.text.specs.Writing.{Wrote};
ghost use Rattle.fields.specs.Claims.{field_of};
ghost use Rattle.samples.specs.declared.Wish.TheVariants.{Rejected};
ghost use Rattle.samples.specs.Values.{longest_sample, sample_outcome, sample_in};
ghost use Rattle.samples.specs.Search.{sample_of};
ghost use Rattle.sampletext.specs.SampleText.{rejects_word, line_for, samples_text, text_for, line_room, most_bytes};

use automaton::Rule;
use base::Refusal;
use samples::Wish;
use searches::Spelled;

// Room for the text of any file: two lines, each a word of 8 bytes, two hex digits for each symbol
// of the longest sample, and a line feed.
pub const ROOM: usize = 2 * (8 + 2 * samples::LONGEST + 1);

// Bytes as a field: two hex digits for each, or `-` for none.
pub fn put_field(out: &mut [u8], at: usize, bytes: &[u8]) -> usize
    requires { (length bytes.now ≤ longest_sample) × (at + 2 * longest_sample ≤ length out.old) }
    ensures { Wrote out.old at (field_of bytes.now) out.new result }
{
    if bytes.len() == 0 {
        return text::put_byte(out, at, b'-');
    }
    hexfields::put_digits(out, at, bytes)
}

// The line of a text.
fn put_text(out: &mut [u8], at: usize, word: &[u8], bytes: &[u8]) -> usize
    requires { (length word.now ≡ 8) × (length bytes.now ≤ longest_sample) × (at + line_room ≤ length out.old) }
    ensures { (Wrote out.old at (word.now ++ (field_of bytes.now ++ (10 ∷ []))) out.new result) × (result ≤ at + line_room) }
{
    let a = text::put_bytes(out, at, word);
    let b = put_field(out, a, bytes);
    text::put_byte(out, b, b'\n')
}

// The line that says that there is no text.
fn put_none(out: &mut [u8], at: usize, word: &[u8]) -> usize
    requires { (length word.now ≡ 8) × (at + line_room ≤ length out.old) }
    ensures { (Wrote out.old at (word.now ++ (110 ∷ 111 ∷ 110 ∷ 101 ∷ 10 ∷ [])) out.new result) × (result ≤ at + line_room) }
{
    let a = text::put_bytes(out, at, word);
    text::put_bytes(out, a, b"none\n")
}

// The line of an answer.
fn put_sample(
    out: &mut [u8],
    at: usize,
    word: &[u8],
    sample: Result<Option<Spelled>, Refusal>,
) -> usize
    requires { (length word.now ≡ 8) × (at + line_room ≤ length out.old) }
    ensures { (Wrote out.old at (line_for word.now (sample_in (sample_outcome sample))) out.new result) × (result ≤ at + line_room) }
{
    match sample {
        Ok(Some(spelled)) => {
            let bytes = spelled.text;
            let n = spelled.length.min(samples::LONGEST);
            put_text(out, at, word, &bytes[..n])
        }
        Ok(None) => put_none(out, at, word),
        Err(refusal) => answers::put_refused(out, at, refusal.number()),
    }
}

// The line of a rejected text.
fn put_rejected(out: &mut [u8], at: usize, rule: Rule) -> usize
    requires { at + line_room ≤ length out.old }
    ensures { (Wrote out.old at (line_for rejects_word (sample_of rule Rejected)) out.new result) × (result ≤ at + line_room) }
{
    let sample = sampling::find_sample(rule, Wish::Rejected);
    put_sample(out, at, b"rejects ", sample)
}

// The lines of a rule.
fn put_samples(out: &mut [u8], rule: Rule) -> usize
    requires { most_bytes ≤ length out.old }
    ensures { Wrote out.old 0 (samples_text rule) out.new result }
{
    let sample = sampling::find_sample(rule, Wish::Accepted);
    let end = put_sample(out, 0, b"accepts ", sample);
    match sample {
        Ok(_) => put_rejected(out, end, rule),
        Err(_) => end,
    }
}

// The samples of the rule in a file, as text; or the number with which it is refused.
pub fn print_samples(file: &[u8], out: &mut [u8]) -> usize
    requires { most_bytes ≤ length out.old }
    ensures { Wrote out.old 0 (text_for file.now) out.new result }
{
    match rulefile::read(file) {
        Ok(rule) => put_samples(out, rule),
        Err(refusal) => answers::put_refused(out, 0, refusal.number()),
    }
}
