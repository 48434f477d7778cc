// Reading a pattern, for C: the functions of the library c_patterns.
ghost use Rattle.std.specs.Prelude.{◌≡◌};
ghost use Rattle.patternfile.specs.Answers.{pattern_of};
ghost use Rattle.c_patterns.specs.Numbers.{pattern_shown};

use c_patterns::PatternNumbers;

// The rule file of a pattern.
#[unsafe(no_mangle)]
pub extern "C" fn bellbadger_pattern(pattern: &[u8]) -> PatternNumbers
    ensures { result ≡ pattern_shown (pattern_of pattern.now) }
{
    c_patterns::bellbadger_pattern(pattern)
}
