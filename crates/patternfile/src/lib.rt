// From the bytes of a pattern to its rule file, by value (document 02, R-6).
#![tactic(auto)]

ghost use Rattle.std.specs.Prelude.{◌≡◌};
ghost use Rattle.patternfile.specs.Answers.{pattern_outcome, pattern_of};

use base::Refusal;

// The rule file of a pattern, by value: so many bytes, and zeros after them.
#[derive(Clone, Copy)]
pub struct PatternFile {
    pub length: usize,
    pub bytes: [u8; patterns::FILE],
}

// The rule file of a pattern, or the first of the refusals 30, 31 and 32 whose condition holds.
pub fn write_pattern(pattern: &[u8]) -> Result<PatternFile, Refusal>
    ensures { pattern_outcome result ≡ pattern_of pattern.now }
{
    if patterns::PATTERN < pattern.len() {
        return Err(Refusal::LongPattern);
    }
    if !patternscan::grammatical(pattern) {
        return Err(Refusal::NoPattern);
    }
    if patterns::LETTERS < patternscan::count_letters(pattern) {
        return Err(Refusal::TooManyLetters);
    }
    let rule = patternreader::read_rule(pattern);
    let mut bytes = [0u8; patterns::FILE];
    let length = rulewriter::put_file(&mut bytes, rule);
    Ok(PatternFile { length, bytes })
}
