// The sample trace of a rule: the first text that it accepts, or the first that it rejects.
#![tactic(auto)]

ghost use Rattle.std.specs.Prelude.{◌≡◌, ◌≤◌, take};
ghost use Rattle.limits.specs.Limits.{most_sets};
ghost use Rattle.automaton.specs.Rules.{WellFormed};
ghost use Rattle.searches.specs.Search.{first_where};
ghost use Rattle.samples.specs.Values.{sample_outcome, outcome_of};
ghost use Rattle.samples.specs.Search.{meets as meetsOf, sample_of};

use automaton::Rule;
use base::Refusal;
use keys::{KeyNumber, Kind};
use samples::Wish;
use searches::Spelled;

// Whether a text that leads to the set is wished.
fn meets(finals: u32, wish: Wish, set: u64) -> bool
    ensures { result ≡ meetsOf finals wish set }
{
    match wish {
        Wish::Accepted => set & (finals as u64) != 0,
        Wish::Rejected => set & (finals as u64) == 0,
    }
}

// The number of the first set that meets the wish; count where none does.
fn first_meeting(sets: &[u64; limits::SETS], count: usize, finals: u32, wish: Wish) -> usize
    requires { count ≤ most_sets }
    ensures { result ≡ first_where (meetsOf finals wish) (take count sets.now) }
{
    let masks: &[u64] = sets;
    for i in 0..count {
        if meets(finals, wish, masks[i]) {
            return i;
        }
    }
    count
}

// The search, for a rule that passes the check.
fn search_sets(rule: Rule, wish: Wish) -> Result<Option<Spelled>, Refusal>
    requires { WellFormed rule }
    ensures { sample_outcome result ≡ outcome_of (sample_of rule wish) }
{
    let k = rule.k;
    let table = keys::number_keys(&rule.targets, Kind::Sets, k, rule.initials as u64);
    let Some(count) = table.count else {
        return Err(Refusal::TooManyReached);
    };
    let sets = table.keys;
    let first = first_meeting(&sets, count, rule.finals, wish);
    if first < count {
        let next = table.next;
        let number = first as u16;
        return Ok(Some(searches::spell(&next, k as usize, KeyNumber(number))));
    }
    Ok(None)
}

// The shortest text of the rule's symbols that it accepts, or that it does not accept, and among
// the shortest the first by symbols; none where there is no such text. The rule may be any value.
pub fn find_sample(rule: Rule, wish: Wish) -> Result<Option<Spelled>, Refusal>
    ensures { sample_outcome result ≡ outcome_of (sample_of rule wish) }
{
    rulecheck::check_rule(rule)?;
    search_sets(rule, wish)
}
