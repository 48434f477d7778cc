// A sample trace of a rule, for C, Rust and Python. The answer is numbers.
#![tactic(auto)]

ghost use Rattle.std.specs.Prelude.{◌≡◌};
ghost use Rattle.samples.specs.Values.{outcome_of};
ghost use Rattle.samples.specs.Search.{sample_of};
ghost use Rattle.c_samples.specs.Numbers.{wish_of, sample_shown};

use automaton::Rule;
use samples::Wish;

// Kind is 0 where the rule is refused, and refused has the number; 1 where there is a text, of so
// many bytes, with zeros after it; 2 where there is none. What a kind has no use for is 0.
#[repr(C)]
#[derive(Clone, Copy)]
pub struct SampleNumbers {
    pub kind: u8,
    pub refused: u8,
    pub length: u16,
    pub text: [u8; samples::LONGEST],
}

// The wish that a number stands for.
fn wish_of(number: u8) -> Wish
    ensures { result ≡ wish_of number }
{
    if number == 0 {
        Wish::Accepted
    } else {
        Wish::Rejected
    }
}

// Wish 0 asks for a text that the rule accepts, any other for one that it does not accept.
pub fn bellbadger_sample(wish: u8, rule: Rule) -> SampleNumbers
    ensures { result ≡ sample_shown (outcome_of (sample_of rule (wish_of wish))) }
{
    match sampling::find_sample(rule, wish_of(wish)) {
        Err(refusal) => {
            let text = [0u8; samples::LONGEST];
            SampleNumbers {
                kind: 0,
                refused: refusal.number(),
                length: 0,
                text,
            }
        }
        Ok(Some(spelled)) => {
            let text = spelled.text;
            SampleNumbers {
                kind: 1,
                refused: 0,
                length: spelled.length as u16,
                text,
            }
        }
        Ok(None) => {
            let text = [0u8; samples::LONGEST];
            SampleNumbers {
                kind: 2,
                refused: 0,
                length: 0,
                text,
            }
        }
    }
}
