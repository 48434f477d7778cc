// Two rules compared, for C, Rust and Python. The answer is numbers.
#![tactic(auto)]

ghost use Rattle.std.specs.Prelude.{◌≡◌};
ghost use Rattle.compare.specs.Values.{outcome_of};
ghost use Rattle.compare.specs.Search.{compare_of};
ghost use Rattle.c_compare.specs.Numbers.{comparison_shown};

use automaton::Rule;
use compare::Which;

// Kind is 0 where the two are refused, and refused has the number; 10 where the first rule alone
// accepts the text, of so many bytes, with zeros after it; 11 where the second alone does; 12 where
// the two accept the same texts. What a kind has no use for is 0. No kind but 0 is one of a verdict
// or of a diagnosis.
#[repr(C)]
#[derive(Clone, Copy)]
pub struct CompareNumbers {
    pub kind: u8,
    pub refused: u8,
    pub length: u16,
    pub text: [u8; searches::LONGEST],
}

// The first text that exactly one of the two rules accepts. The rules may be any values.
pub fn bellbadger_compare(one: Rule, two: Rule) -> CompareNumbers
    ensures { result ≡ comparison_shown (outcome_of (compare_of one two)) }
{
    match compare::compare(one, two) {
        Err(refusal) => {
            let text = [0u8; searches::LONGEST];
            CompareNumbers {
                kind: 0,
                refused: refusal.number(),
                length: 0,
                text,
            }
        }
        Ok(Some(apart)) => {
            let spelled = apart.text;
            let text = spelled.text;
            let kind = match apart.which {
                Which::First => 10,
                Which::Second => 11,
            };
            CompareNumbers {
                kind,
                refused: 0,
                length: spelled.length as u16,
                text,
            }
        }
        Ok(None) => {
            let text = [0u8; searches::LONGEST];
            CompareNumbers {
                kind: 12,
                refused: 0,
                length: 0,
                text,
            }
        }
    }
}
