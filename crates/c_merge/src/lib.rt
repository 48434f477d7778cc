// Merging two rules for C, Rust and Python. The answer is numbers.
#![tactic(auto)]

ghost use Rattle.std.specs.Prelude.{◌≡◌};
ghost use Rattle.merging.specs.Merging.{way_of, merge_outcome, merge_of};
ghost use Rattle.c_merge.specs.Numbers.{merge_shown};

use automaton::Rule;
use base::Refusal;

// Accepted is 1 or 0; where it is 0, refused has the number, and every number of the rule is 0.
#[repr(C)]
#[derive(Clone, Copy)]
pub struct MergeNumbers {
    pub accepted: u8,
    pub refused: u8,
    pub rule: Rule,
}

// What merging comes to, in the numbers that C is given.
pub fn in_numbers(merging: Result<Rule, Refusal>) -> MergeNumbers
    ensures { result ≡ merge_shown (merge_outcome merging) }
{
    let shown = flags::shown(&merging);
    match merging {
        Ok(rule) => MergeNumbers {
            accepted: shown.accepted,
            refused: shown.refused,
            rule,
        },
        Err(_) => {
            let rule = rulefile::no_rule();
            MergeNumbers {
                accepted: shown.accepted,
                refused: shown.refused,
                rule,
            }
        }
    }
}

// Way 0 is a text that both rules accept, 1 a text that either accepts, any other an interleaving
// of one from each.
pub fn bellbadger_merge(way: u8, one: Rule, two: Rule) -> MergeNumbers
    ensures { result ≡ merge_shown (merge_of (way_of way) one two) }
{
    in_numbers(merge::merge(merge::way_of(way), one, two))
}
