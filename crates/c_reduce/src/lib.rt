// Reducing a rule for C, Rust and Python. The answer is numbers.
#![tactic(auto)]

ghost use Rattle.std.specs.Prelude.{◌≡◌};
ghost use Rattle.reducing.specs.Reducing.{reduce_of};
ghost use Rattle.c_reduce.specs.Numbers.{reduce_shown};

use automaton::Rule;

// Accepted is 1 or 0; where it is 0, refused has the number, and installs and every number of the
// rule are 0. Installs is 1 where installing the reduced rule is accepted.
#[repr(C)]
#[derive(Clone, Copy)]
pub struct ReduceNumbers {
    pub accepted: u8,
    pub refused: u8,
    pub installs: u8,
    pub rule: Rule,
}

// Reduces a rule, which may be any value.
pub fn bellbadger_reduce(rule: Rule) -> ReduceNumbers
    ensures { result ≡ reduce_shown (reduce_of rule) }
{
    let reducing = reduce::reduce(rule);
    let shown = flags::shown(&reducing);
    match reducing {
        Ok(reduced) => {
            let rule = reduced.rule;
            ReduceNumbers {
                accepted: shown.accepted,
                refused: shown.refused,
                installs: flags::bit(reduced.installs),
                rule,
            }
        }
        Err(_) => {
            let rule = rulefile::no_rule();
            ReduceNumbers {
                accepted: shown.accepted,
                refused: shown.refused,
                installs: 0,
                rule,
            }
        }
    }
}
