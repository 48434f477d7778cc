// Two rules made one: a text that both accept, a text that either accepts, or an interleaving of
// one from each. Any numbers may stand in the rules.
#![tactic(auto)]

ghost use Rattle.std.specs.Prelude.{◌≡◌, ◌+◌, ◌*◌, ◌≤◌, ◌<◌};
ghost use Rattle.base.specs.Answers.{result_number};
ghost use Rattle.base.specs.Lists.{list_from};
ghost use Rattle.limits.specs.Limits.{most_states, most_symbols, target_cells};
ghost use Rattle.automaton.specs.Rules.{target_mask};
ghost use Rattle.merging.specs.Merged.{states_of, pairs as pairsOf, beside as besideOf, set_of, one_moves, own_targets, targets_of, cell_in, merged_of};
ghost use Rattle.merging.specs.Merging.{way_of, merge_number, merge_outcome, merge_of};
ghost use Rattle.merging.specs.Claims.{Mergeable};
ghost use Rattle.merge.specs.mirror.Asked.{Sizes, Masks, Tables};

use automaton::Rule;
use base::Refusal;
use masks::StateNumber;
use merging::Way;

// The way that a number names; every number names one.
pub fn way_of(number: u8) -> Way
    ensures { result ≡ way_of number }
{
    if number == 0 {
        return Way::Both;
    }
    if number == 1 {
        return Way::Either;
    }
    Way::Interleaving
}

// The number of states of the result.
pub fn states(way: Way, n1: usize, n2: usize) -> usize
    requires { (n1 ≤ most_states) × (n2 ≤ most_states) }
    ensures { result ≡ states_of way n1 n2 }
{
    match way {
        Way::Both => n1 * n2,
        Way::Either => n1 + n2,
        Way::Interleaving => n1 * n2,
    }
}

// The pairs of a member of a, a set of n1 states, and one of b, a set of n2 states: b is put behind
// q * n2 states for each member q of a.
fn pairs(a: u32, b: u32, n1: usize, n2: usize) -> u32
    requires { Masks a b n1 n2 × (1 ≤ n2) × (n1 * n2 ≤ most_states) }
    ensures { result ≡ pairsOf a b n2 }
{
    let mut at: usize = 0;
    let mut out: u32 = 0;
    for q in 0..n1 {
        if (a >> q) & 1 == 1 {
            out = out | (b << at);
        }
        at += n2;
    }
    out
}

// The states of a, a set of n1 states, and those of b, a set of n2 states, after them.
fn beside(a: u32, b: u32, n1: usize, n2: usize) -> u32
    requires { Masks a b n1 n2 × (1 ≤ n2) × (n1 + n2 ≤ most_states) }
    ensures { result ≡ besideOf a b n1 }
{
    a | (b << n1)
}

// The initial or final states of the result, from those of the two rules.
fn set_of(way: Way, n1: usize, n2: usize, a: u32, b: u32) -> u32
    requires { Sizes way n1 n2 × Masks a b n1 n2 }
    ensures { result ≡ set_of way n1 n2 a b }
{
    match way {
        Way::Both => pairs(a, b, n1, n2),
        Way::Either => beside(a, b, n1, n2),
        Way::Interleaving => pairs(a, b, n1, n2),
    }
}

// The targets of the pair (x, y) where one member moves alone, from the targets of its members.
fn one_moves(n1: usize, n2: usize, x: StateNumber, y: StateNumber, a: u32, b: u32) -> u32
    requires { Masks a b n1 n2 × (x.0 < n1) × (y.0 < n2) × (n1 * n2 ≤ most_states) }
    ensures { result ≡ one_moves n2 x.0 y.0 a b }
{
    let first = pairs(a, masks::singleton(y), n1, n2);
    let second = pairs(masks::singleton(x), b, n1, n2);
    masks::union(first, second)
}

// The target mask of state q and symbol s.
pub fn mask_at(targets: &[u32; limits::TARGETS], q: usize, s: usize) -> u32
    requires { (q < most_states) × (s < most_symbols) }
    ensures { result ≡ target_mask targets.now q s }
{
    targets[q * limits::SYMBOLS + s]
}

// The targets of the state q by the symbol s in its own rule.
fn own_targets(
    n1: usize,
    n2: usize,
    t1: &[u32; limits::TARGETS],
    t2: &[u32; limits::TARGETS],
    q: usize,
    s: usize,
) -> u32
    requires { Tables n1 n2 t1.now t2.now × (n1 + n2 ≤ most_states) × (q < n1 + n2) × (s < most_symbols) }
    ensures { result ≡ own_targets n1 t1.now t2.now q s }
{
    if q < n1 {
        return mask_at(t1, q, s);
    }
    mask_at(t2, q - n1, s) << n1
}

// The targets of the result's state q by the symbol s.
fn targets_of(
    way: Way,
    n1: usize,
    n2: usize,
    t1: &[u32; limits::TARGETS],
    t2: &[u32; limits::TARGETS],
    q: usize,
    s: usize,
) -> u32
    requires { Sizes way n1 n2 × Tables n1 n2 t1.now t2.now × (q < states_of way n1 n2) × (s < most_symbols) }
    ensures { result ≡ targets_of way n1 n2 t1.now t2.now q s }
{
    let x = q / n2;
    let y = q % n2;
    let a = mask_at(t1, x, s);
    let b = mask_at(t2, y, s);
    match way {
        Way::Both => pairs(a, b, n1, n2),
        Way::Either => own_targets(n1, n2, t1, t2, q, s),
        Way::Interleaving => { one_moves(n1, n2, StateNumber(x as u8), StateNumber(y as u8), a, b) }
    }
}

// A cell of the result's table: 0 for what is no state of it.
fn cell_of(
    way: Way,
    n1: usize,
    n2: usize,
    t1: &[u32; limits::TARGETS],
    t2: &[u32; limits::TARGETS],
    cell: usize,
) -> u32
    requires { Sizes way n1 n2 × Tables n1 n2 t1.now t2.now }
    ensures { result ≡ cell_in way n1 n2 t1.now t2.now cell }
{
    let q = cell / limits::SYMBOLS;
    if q < states(way, n1, n2) {
        return targets_of(way, n1, n2, t1, t2, q, cell % limits::SYMBOLS);
    }
    0
}

// The result's table.
fn table_of(
    way: Way,
    n1: usize,
    n2: usize,
    t1: &[u32; limits::TARGETS],
    t2: &[u32; limits::TARGETS],
) -> [u32; limits::TARGETS]
    requires { Sizes way n1 n2 × Tables n1 n2 t1.now t2.now }
    ensures { result ≡ list_from 0 target_cells (cell_in way n1 n2 t1.now t2.now) }
{
    let mut table = [0u32; limits::TARGETS];
    for (cell, mask) in table.iter_mut().enumerate() {
        *mask = cell_of(way, n1, n2, t1, t2, cell);
    }
    table
}

// The result, where no condition holds.
fn merged(way: Way, one: Rule, two: Rule) -> Rule
    requires { Mergeable way one two }
    ensures { result ≡ merged_of way one two }
{
    let n1 = one.n as usize;
    let n2 = two.n as usize;
    let t1 = one.targets;
    let t2 = two.targets;
    let n = states(way, n1, n2);
    let initials = set_of(way, n1, n2, one.initials, two.initials);
    let finals = set_of(way, n1, n2, one.finals, two.finals);
    let targets = table_of(way, n1, n2, &t1, &t2);
    Rule {
        n: n as u8,
        k: one.k,
        initials,
        finals,
        targets,
    }
}

// The first condition that holds: the first rule's, the second's, then 36 and 37.
fn check(way: Way, one: Rule, two: Rule) -> Result<(), Refusal>
    ensures { result_number result ≡ merge_number way one two }
{
    rulecheck::check_rule(one)?;
    rulecheck::check_rule(two)?;
    if one.k != two.k {
        return Err(Refusal::OtherSymbols);
    }
    if limits::STATES < states(way, one.n as usize, two.n as usize) {
        return Err(Refusal::TooManyMerged);
    }
    Ok(())
}

// The two rules made one, or the first condition that holds.
pub fn merge(way: Way, one: Rule, two: Rule) -> Result<Rule, Refusal>
    ensures { merge_outcome result ≡ merge_of way one two }
{
    check(way, one, two)?;
    Ok(merged(way, one, two))
}
