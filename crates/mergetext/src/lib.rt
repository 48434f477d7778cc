// The text of rulemerge: two rule files, merged or compared, or one, reduced, and the line that answers.
#![tactic(auto)]

ghost use Rattle.std.specs.Prelude.{IfOk, ◌≡◌, [], ◌∷◌, ◌++◌, ◌+◌, ◌≤◌, length};
ghost use Rattle.std.proofs.Math.Option.{none};
ghost use Rattle.text.specs.Writing.{Wrote};
ghost use Rattle.fields.specs.Claims.{digits_of, field_of};
ghost use Rattle.rulecheck.specs.Checking.{rule_number};
ghost use Rattle.ruleformat.specs.Writing.{file_of};
ghost use Rattle.searches.specs.Texts.{longest_text};
ghost use Rattle.compare.specs.Values.{compare_outcome, comparison_in};
ghost use Rattle.mergetext.specs.Lines.{pair_by, alone_by};
ghost use Rattle.mergetext.specs.Answers.{most_answer, apart, rule_response, merged_files, compared_by, compared_files, reduced_file, response_in, response_text};

use automaton::Rule;
use base::Refusal;
use compare::{Apart, Which};
use merging::Way;

// The word of a line: two files are merged in a way, or compared, or one is reduced.
#[derive(Clone, Copy)]
pub enum Verb {
    Merge(Way),
    Compare,
    Reduce,
}

// The file of a rule that passes, in hex digits.
fn put_rule(out: &mut [u8], at: usize, rule: Rule) -> usize
    requires { (rule_number rule ≡ none) × (at + most_answer ≤ length out.old) }
    ensures { Wrote out.old at (digits_of (file_of rule) ++ (10 ∷ [])) out.new result }
{
    let mut bytes = [0u8; limits::FILE];
    let n = rulewriter::put_file(&mut bytes, rule);
    let end = hexfields::put_digits(out, at, &bytes[..n]);
    text::put_byte(out, end, b'\n')
}

// The line of a rule that is made, or of a refusal.
fn put_made(out: &mut [u8], at: usize, made: Result<Rule, Refusal>) -> usize
    requires { IfOk made (λ r. rule_number r ≡ none) × (at + most_answer ≤ length out.old) }
    ensures { Wrote out.old at (response_text (rule_response made)) out.new result }
{
    match made {
        Ok(rule) => put_rule(out, at, rule),
        Err(refusal) => answers::put_refused(out, at, refusal.number()),
    }
}

// The line of a text: a word, and the text as a field.
fn put_text(out: &mut [u8], at: usize, word: &[u8], bytes: &[u8]) -> usize
    requires { (length word.now ≤ 13) × (length bytes.now ≤ longest_text) × (at + most_answer ≤ length out.old) }
    ensures { Wrote out.old at (word.now ++ (field_of bytes.now ++ (10 ∷ []))) out.new result }
{
    let a = text::put_bytes(out, at, word);
    let b = sampletext::put_field(out, a, bytes);
    text::put_byte(out, b, b'\n')
}

// The line of a text that tells two rules apart.
fn put_apart(out: &mut [u8], at: usize, which: Which, bytes: &[u8]) -> usize
    requires { (length bytes.now ≤ longest_text) × (at + most_answer ≤ length out.old) }
    ensures { Wrote out.old at (response_text (apart which bytes.now)) out.new result }
{
    match which {
        Which::First => put_text(out, at, b"apart first ", bytes),
        Which::Second => put_text(out, at, b"apart second ", bytes),
    }
}

// The line of a comparison.
fn put_comparison(out: &mut [u8], at: usize, comparison: Result<Option<Apart>, Refusal>) -> usize
    requires { at + most_answer ≤ length out.old }
    ensures { Wrote out.old at (response_text (compared_by (comparison_in (compare_outcome comparison)))) out.new result }
{
    match comparison {
        Ok(Some(apart)) => {
            let spelled = apart.text;
            let bytes = spelled.text;
            let n = spelled.length.min(searches::LONGEST);
            put_apart(out, at, apart.which, &bytes[..n])
        }
        Ok(None) => text::put_bytes(out, at, b"same\n"),
        Err(refusal) => answers::put_refused(out, at, refusal.number()),
    }
}

// Reads the first file, then the second, and merges them.
fn merge_files(way: Way, one: &[u8], two: &[u8]) -> Result<Rule, Refusal>
    ensures answered { rule_response result ≡ merged_files way one.now two.now }
    ensures passes { IfOk result (λ r. rule_number r ≡ none) }
{
    let first = rulefile::read(one)?;
    let second = rulefile::read(two)?;
    merge::merge(way, first, second)
}

// Reads the first file, then the second, and compares them.
fn compare_files(one: &[u8], two: &[u8]) -> Result<Option<Apart>, Refusal>
    ensures { compared_by (comparison_in (compare_outcome result)) ≡ compared_files one.now two.now }
{
    let first = rulefile::read(one)?;
    let second = rulefile::read(two)?;
    compare::compare(first, second)
}

// Reads a file and reduces it.
fn reduce_file(file: &[u8]) -> Result<Rule, Refusal>
    ensures answered { rule_response result ≡ reduced_file file.now }
    ensures passes { IfOk result (λ r. rule_number r ≡ none) }
{
    let rule = rulefile::read(file)?;
    let reduced = reduce::reduce(rule)?;
    Ok(reduced.rule)
}

// The answer to a word and two files.
pub fn put_pair(verb: Verb, one: &[u8], two: &[u8], out: &mut [u8], at: usize) -> usize
    requires { at + most_answer ≤ length out.old }
    ensures { Wrote out.old at (response_text (response_in (pair_by verb one.now two.now))) out.new result }
{
    match verb {
        Verb::Merge(way) => put_made(out, at, merge_files(way, one, two)),
        Verb::Compare => put_comparison(out, at, compare_files(one, two)),
        Verb::Reduce => answers::put_malformed(out, at),
    }
}

// The answer to a word and one file.
pub fn put_alone(verb: Verb, file: &[u8], out: &mut [u8], at: usize) -> usize
    requires { at + most_answer ≤ length out.old }
    ensures { Wrote out.old at (response_text (response_in (alone_by verb file.now))) out.new result }
{
    match verb {
        Verb::Merge(_) => answers::put_malformed(out, at),
        Verb::Compare => answers::put_malformed(out, at),
        Verb::Reduce => put_made(out, at, reduce_file(file)),
    }
}
