// What the functions for C have in common in their answers: the fields `accepted` and `refused`, and
// a field that is 1 or 0. The rest is definitions, in specs/, and their law, in proofs/.
#![tactic(auto)]

ghost use Rattle.std.specs.Prelude.{◌≡◌};
ghost use Rattle.base.specs.Answers.{result_number};
ghost use Rattle.flags.specs.Flags.{flag_by, refused_by, bit_by};

use base::Refusal;

// Accepted is 1 or 0; where it is 0, refused has the number, else it is 0.
#[derive(Clone, Copy)]
pub struct AnswerFlags {
    pub accepted: u8,
    pub refused: u8,
}

// 1 where the test holds, else 0.
pub fn bit(test: bool) -> u8
    ensures { result ≡ bit_by test }
{
    if test {
        return 1;
    }
    0
}

// The fields of an answer, whatever stands beside accepted.
pub fn shown<T>(answer: &Result<T, Refusal>) -> AnswerFlags
    ensures { (result.accepted ≡ flag_by (result_number answer.now)) × (result.refused ≡ refused_by (result_number answer.now)) }
{
    match answer {
        Ok(_) => AnswerFlags {
            accepted: 1,
            refused: 0,
        },
        Err(refusal) => AnswerFlags {
            accepted: 0,
            refused: refusal.number(),
        },
    }
}
