// Reduces a rule: dead and unreachable states go, alike states become the lowest reachable one of
// them, and what is left is numbered anew from 0 in its old order. Any numbers may stand in the
// rule.
#![tactic(auto)]

ghost use Rattle.std.specs.Prelude.{◌≡◌, ◌≤◌, ◌<◌, max, ◌&&◌, not, eqb, get_or};
ghost use Rattle.base.specs.Lists.{list_from};
ghost use Rattle.limits.specs.Limits.{most_states, most_symbols, target_cells};
ghost use Rattle.masks.specs.Masks.{has, single};
ghost use Rattle.masks.specs.Turns.{rank};
ghost use Rattle.subsets.specs.Sets.{too_many};
ghost use Rattle.delegates.specs.mirror.Classes.{first_from};
ghost use Rattle.delegates.specs.Alike.{delegate_in, of_delegate};
ghost use Rattle.reducing.specs.Reduced.{delegated as delegatedOf, onward as onwardOf, kept_of, own_list, reached_of, chosen_cell, chosen_of, renamed as renamedOf, row_of, targets_of, cell_in, reduced_by};
ghost use Rattle.reducing.specs.Reducing.{reduce_outcome, reduce_of};

use automaton::Rule;
use base::Refusal;
use delegates::DelegateAnswer;
use masks::StateNumber;
use reducing::Reduced;

// The set of the delegate of state q, which is empty where it has none.
fn delegate_set(delegates: &[u8; limits::STATES], q: StateNumber) -> u32
    requires { q.0 < most_states }
    ensures { result ≡ of_delegate single (delegate_in delegates.now q.0) }
{
    let found = delegates::delegate_at(delegates, q);
    match found {
        DelegateAnswer::State(x) => masks::singleton(x),
        DelegateAnswer::None => 0,
    }
}

// The delegates of the members of the set; a state that leads nowhere has none.
fn delegated(delegates: &[u8; limits::STATES], set: u32) -> u32
    ensures { result ≡ delegatedOf delegates.now set }
{
    let mut out: u32 = 0;
    for q in 0..limits::MOST_STATES {
        if masks::member(set, StateNumber(q)) {
            out = masks::union(out, delegate_set(delegates, StateNumber(q)));
        }
    }
    out
}

// The set, with the delegates of every target of an arc from a member of it.
fn onward(targets: &[u32; limits::TARGETS], delegates: &[u8; limits::STATES], set: u32) -> u32
    ensures { result ≡ onwardOf targets.now delegates.now set }
{
    let mut found: u32 = 0;
    for s in 0..limits::MOST_SYMBOLS {
        let reached = automaton::successor(targets, set, s);
        found = masks::union(found, delegated(delegates, reached));
    }
    masks::union(set, found)
}

// The states that stay: onward from the delegates of the initial states until nothing is new, which
// is so after 32 rounds at the latest.
fn kept(targets: &[u32; limits::TARGETS], delegates: &[u8; limits::STATES], initials: u32) -> u32
    ensures { result ≡ kept_of targets.now delegates.now initials }
{
    let mut set = delegated(delegates, initials);
    for _round in 0..limits::STATES {
        let more = onward(targets, delegates, set);
        if more == set {
            return set;
        }
        set = more;
    }
    set
}

// The list in which each state stands for itself.
fn own_list() -> [u8; limits::STATES]
    ensures { result ≡ own_list }
{
    let mut list = [0u8; limits::STATES];
    for (q, delegate) in list.iter_mut().enumerate() {
        *delegate = q as u8;
    }
    list
}

// Whether state p is reached, and has the delegate d.
fn has_delegate(delegates: &[u8; limits::STATES], reached: u32, p: StateNumber, d: u8) -> bool
    requires { p.0 < most_states }
    ensures { result ≡ (has reached p.0 && eqb (get_or delegates.now p.0 0) d) }
{
    if masks::member(reached, p) {
        let i = p.0 as usize;
        return delegates[i] == d;
    }
    false
}

// The lowest reached state with the delegate d, which q has.
fn lowest(delegates: &[u8; limits::STATES], reached: u32, q: StateNumber, d: u8) -> u8
    requires { q.0 < most_states }
    ensures { result ≡ first_from (λ p. has reached p && eqb (get_or delegates.now p 0) d) 0 q.0 }
{
    for p in 0..q.0 {
        if has_delegate(delegates, reached, StateNumber(p), d) {
            return p;
        }
    }
    q.0
}

// What stands for the state q: the lowest reached state with its delegate; none where it has none,
// or is not reached.
fn chosen_cell(delegates: &[u8; limits::STATES], reached: u32, q: StateNumber) -> u8
    requires { q.0 < most_states }
    ensures { result ≡ chosen_cell delegates.now reached q.0 }
{
    if masks::member(reached, q) {
        let i = q.0 as usize;
        let d = delegates[i];
        if d < limits::NO_DELEGATE {
            return lowest(delegates, reached, q, d);
        }
    }
    limits::NO_DELEGATE
}

// What stands for each state.
fn chosen_list(delegates: &[u8; limits::STATES], reached: u32) -> [u8; limits::STATES]
    ensures { result ≡ chosen_of delegates.now reached }
{
    let mut list = [0u8; limits::STATES];
    for (q, delegate) in list.iter_mut().enumerate() {
        *delegate = chosen_cell(delegates, reached, StateNumber(q as u8));
    }
    list
}

// The same, by the rule's arcs and initial states.
fn list_of(
    targets: &[u32; limits::TARGETS],
    delegates: &[u8; limits::STATES],
    initials: u32,
) -> [u8; limits::STATES]
    ensures { result ≡ chosen_of delegates.now (reached_of targets.now initials) }
{
    let own = own_list();
    let reached = kept(targets, &own, initials);
    chosen_list(delegates, reached)
}

// How many states of the set are below q.
fn count(set: u32, q: u8) -> u8
    requires { q ≤ most_states }
    ensures { result ≡ rank set q }
{
    let mut out: u8 = 0;
    for p in 0..q {
        if masks::member(set, StateNumber(p)) {
            out += 1;
        }
    }
    out
}

// The new numbers of the members of the set that stay.
fn renamed(kept: u32, set: u32) -> u32
    ensures { result ≡ renamedOf kept set }
{
    let both = kept & set;
    let mut out: u32 = 0;
    for q in 0..limits::MOST_STATES {
        if masks::member(both, StateNumber(q)) {
            let new = count(kept, q);
            out = masks::union(out, masks::singleton(StateNumber(new)));
        }
    }
    out
}

// The new targets of the state q by the symbol s, where its new number is p; else none.
fn row_set(
    targets: &[u32; limits::TARGETS],
    delegates: &[u8; limits::STATES],
    kept: u32,
    q: StateNumber,
    p: u8,
    s: usize,
) -> u32
    requires { (q.0 < most_states) × (s < most_symbols) }
    ensures { result ≡ row_of targets.now delegates.now kept p s q.0 }
{
    if count(kept, q.0) == p {
        let row = q.0 as usize;
        let to = delegated(delegates, targets[row * limits::SYMBOLS + s]);
        return renamed(kept, to);
    }
    0
}

// The targets of the new state p by the symbol s.
fn targets_of(
    targets: &[u32; limits::TARGETS],
    delegates: &[u8; limits::STATES],
    kept: u32,
    p: u8,
    s: usize,
) -> u32
    requires { s < most_symbols }
    ensures { result ≡ targets_of targets.now delegates.now kept p s }
{
    let mut out: u32 = 0;
    for q in 0..limits::MOST_STATES {
        if masks::member(kept, StateNumber(q)) {
            out = masks::union(out, row_set(targets, delegates, kept, StateNumber(q), p, s));
        }
    }
    out
}

// A cell of the new table: 0 for what is no state of it.
fn cell_of(
    targets: &[u32; limits::TARGETS],
    delegates: &[u8; limits::STATES],
    kept: u32,
    cell: usize,
) -> u32
    requires { cell < target_cells }
    ensures { result ≡ cell_in targets.now delegates.now kept cell }
{
    let p = (cell / limits::SYMBOLS) as u8;
    if p < count(kept, limits::MOST_STATES) {
        return targets_of(targets, delegates, kept, p, cell % limits::SYMBOLS);
    }
    0
}

// The new table.
fn table_of(
    targets: &[u32; limits::TARGETS],
    delegates: &[u8; limits::STATES],
    kept: u32,
) -> [u32; limits::TARGETS]
    ensures { result ≡ list_from 0 target_cells (cell_in targets.now delegates.now kept) }
{
    let mut table = [0u32; limits::TARGETS];
    for (cell, mask) in table.iter_mut().enumerate() {
        *mask = cell_of(targets, delegates, kept, cell);
    }
    table
}

// The number of new states: one at least.
fn states(kept: u32) -> u8
    ensures { result ≡ max 1 (rank kept most_states) }
{
    let n = count(kept, limits::MOST_STATES);
    if n < 1 { 1 } else { n }
}

// The reduced rule, by a list of what stands for each state.
fn reduced(rule: Rule, delegates: &[u8; limits::STATES]) -> Rule
    ensures { result ≡ reduced_by rule delegates.now (kept_of rule.targets delegates.now rule.initials) }
{
    let old = rule.targets;
    let stay = kept(&old, delegates, rule.initials);
    let n = states(stay);
    let initials = renamed(stay, delegated(delegates, rule.initials));
    let finals = renamed(stay, rule.finals);
    let targets = table_of(&old, delegates, stay);
    Rule {
        n,
        k: rule.k,
        initials,
        finals,
        targets,
    }
}

// Whether the rule has at most 512 sets.
fn few_sets(rule: Rule) -> bool
    ensures { result ≡ not (too_many rule.targets rule.n rule.k) }
{
    let targets = rule.targets;
    subsets::number_sets(&targets, rule.n, rule.k).is_some()
}

// The rule reduced, and whether the result installs; or why the rule's own installation is refused.
pub fn reduce(rule: Rule) -> Result<Reduced, Refusal>
    ensures { reduce_outcome result ≡ reduce_of rule }
{
    rulecheck::check_rule(rule)?;
    let built = build::build_rule(rule)?;
    let delegates = built.delegates;
    let old = rule.targets;
    let list = list_of(&old, &delegates, rule.initials);
    let made = reduced(rule, &list);
    Ok(Reduced {
        installs: few_sets(made),
        rule: made,
    })
}
