// Checking a rule that is handed in as a value: any numbers may stand in its fields.
#![tactic(auto)]

ghost use Rattle.std.specs.Prelude.{◌≡◌};
ghost use Rattle.base.specs.Answers.{result_number};
ghost use Rattle.base.specs.Conditions.{outside as outsideOf};
ghost use Rattle.rulecheck.specs.Checking.{beyond as beyondOf, bad_masks, bad_target, bad_targets, rule_number};

use automaton::Rule;
use base::Refusal;

// x is not in 1 .. most.
pub fn outside(x: usize, most: usize) -> bool
    ensures { result ≡ outsideOf 1 most x }
{
    if x < 1 {
        return true;
    }
    most < x
}

// The set has a state at n or above, which no set has where n is 32 or more.
fn beyond(set: u32, n: usize) -> bool
    ensures { result ≡ beyondOf n set }
{
    if limits::STATES <= n {
        return false;
    }
    set >> n != 0
}

// Condition 6: a mask with a bit at n or above.
pub fn bad_masks(n: usize, initials: u32, finals: u32) -> bool
    ensures { result ≡ bad_masks n initials finals }
{
    if beyond(initials, n) {
        return true;
    }
    beyond(finals, n)
}

// The target mask of state q and symbol s has a bit at n or above, or it is kept for a state or a
// symbol outside n or k and is not 0.
fn bad_target(n: usize, k: usize, q: usize, s: usize, mask: u32) -> bool
    ensures { result ≡ bad_target n k q s mask }
{
    if n <= q {
        return mask != 0;
    }
    if k <= s {
        return mask != 0;
    }
    beyond(mask, n)
}

// Condition 8 of a rule: some target mask is bad.
fn bad_targets(n: usize, k: usize, targets: &[u32; limits::TARGETS]) -> bool
    ensures { result ≡ bad_targets n k targets.now }
{
    for (cell, mask) in targets.iter().enumerate() {
        let q = cell / limits::SYMBOLS;
        let s = cell % limits::SYMBOLS;
        if bad_target(n, k, q, s, *mask) {
            return true;
        }
    }
    false
}

// The first of the conditions 3, 4, 6 and 8 that holds of the rule.
pub fn check_rule(rule: Rule) -> Result<(), Refusal>
    ensures { result_number result ≡ rule_number rule }
{
    let n = rule.n as usize;
    if outside(n, limits::STATES) {
        return Err(Refusal::StateCount);
    }
    let k = rule.k as usize;
    if outside(k, limits::SYMBOLS) {
        return Err(Refusal::SymbolCount);
    }
    if bad_masks(n, rule.initials, rule.finals) {
        return Err(Refusal::StrayState);
    }
    if bad_targets(n, k, &rule.targets) {
        return Err(Refusal::BadArcs);
    }
    Ok(())
}
