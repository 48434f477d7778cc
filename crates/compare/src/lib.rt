// Two rules compared: the first text that exactly one of the two accepts, and which one.
#![tactic(auto)]

ghost use Rattle.std.specs.Prelude.{◌≡◌, ◌≤◌, take};
ghost use Rattle.limits.specs.Limits.{most_sets};
ghost use Rattle.automaton.specs.Rules.{WellFormed};
ghost use Rattle.searches.specs.Search.{first_where};
ghost use Rattle.compare.specs.Search.{differs as differsOf, which_of, compare_of};
ghost use Rattle.compare.specs.Values.{compare_outcome, outcome_of};

use automaton::Rule;
use base::Refusal;
use keys::{KeyNumber, Kind};
use searches::Spelled;

// One of two rules.
#[derive(Clone, Copy)]
pub enum Which {
    First,
    Second,
}

// A text that exactly one of two rules accepts, and which one.
#[derive(Clone, Copy)]
pub struct Apart {
    pub which: Which,
    pub text: Spelled,
}

// Whether exactly one of the pair's sets has a final state.
fn differs(finals: u32, others: u32, pair: u64) -> bool
    ensures { result ≡ differsOf finals others pair }
{
    let second = masks::meets((pair / 4294967296) as u32, others);
    if masks::meets((pair % 4294967296) as u32, finals) {
        return !second;
    }
    second
}

// The rule that accepts, where one of the pair's sets has a final state.
fn which_of(finals: u32, pair: u64) -> Which
    ensures { result ≡ which_of finals pair }
{
    if masks::meets((pair % 4294967296) as u32, finals) {
        return Which::First;
    }
    Which::Second
}

// The number of the first pair of which exactly one set has a final state; count where none has.
fn first_apart(pairs: &[u64; limits::SETS], count: usize, finals: u32, others: u32) -> usize
    requires { count ≤ most_sets }
    ensures { result ≡ first_where (differsOf finals others) (take count pairs.now) }
{
    let cells: &[u64] = pairs;
    for i in 0..count {
        if differs(finals, others, cells[i]) {
            return i;
        }
    }
    count
}

// The search, for two rules that pass the check and have the same number of symbols.
fn search_pairs(one: Rule, two: Rule) -> Result<Option<Apart>, Refusal>
    requires { WellFormed one × WellFormed two × (one.k ≡ two.k) }
    ensures { compare_outcome result ≡ outcome_of (compare_of one two) }
{
    let k = one.k;
    let start = one.initials as u64 + two.initials as u64 * 4294967296;
    let table = keys::number_by(&one.targets, &two.targets, Kind::Pairs, k, start);
    let count = table.count.unwrap_or(limits::SETS);
    let pairs = table.keys;
    let first = first_apart(&pairs, count, one.finals, two.finals);
    if first < count {
        let which = which_of(one.finals, pairs[first]);
        let next = table.next;
        let number = first as u16;
        let text = searches::spell(&next, k as usize, KeyNumber(number));
        return Ok(Some(Apart { which, text }));
    }
    match table.count {
        None => Err(Refusal::TooManyPairs),
        Some(_) => Ok(None),
    }
}

// The shortest text that exactly one of the two rules accepts, and among the shortest the first by
// symbols; none where the two accept the same texts. The rules may be any values.
pub fn compare(one: Rule, two: Rule) -> Result<Option<Apart>, Refusal>
    ensures { compare_outcome result ≡ outcome_of (compare_of one two) }
{
    rulecheck::check_rule(one)?;
    rulecheck::check_rule(two)?;
    if one.k != two.k {
        return Err(Refusal::OtherSymbols);
    }
    search_pairs(one, two)
}
