// Reading a pattern, for C and Rust: the answer in numbers.
#![tactic(auto)]

ghost use Rattle.std.specs.Prelude.{◌≡◌};
ghost use Rattle.patternfile.specs.Answers.{pattern_of};
ghost use Rattle.c_patterns.specs.Numbers.{pattern_shown};

// Accepted is 1 or 0; where it is 0, refused has the number. The rule file has so many bytes, and
// zeros after them; where the pattern is refused, none.
#[repr(C)]
#[derive(Clone, Copy)]
pub struct PatternNumbers {
    pub accepted: u8,
    pub refused: u8,
    pub length: u16,
    pub bytes: [u8; patterns::FILE],
}

// The rule file of a pattern.
pub fn bellbadger_pattern(pattern: &[u8]) -> PatternNumbers
    ensures { result ≡ pattern_shown (pattern_of pattern.now) }
{
    let written = patternfile::write_pattern(pattern);
    let shown = flags::shown(&written);
    match written {
        Ok(file) => {
            let bytes = file.bytes;
            PatternNumbers {
                accepted: shown.accepted,
                refused: shown.refused,
                length: file.length as u16,
                bytes,
            }
        }
        Err(_) => {
            let bytes = [0u8; patterns::FILE];
            PatternNumbers {
                accepted: shown.accepted,
                refused: shown.refused,
                length: 0,
                bytes,
            }
        }
    }
}
