// The delegates of states and the number of starts, by the classes of alike sets (Moore's
// refinement): a state whose set is in the class of the empty set leads nowhere and has none. 512
// stands for the empty set, and so does any number above it in the next-set table.
#![tactic(auto)]

ghost use Rattle.std.specs.Prelude.{◌≡◌, ◌≤◌, ◌<◌};
ghost use Rattle.limits.specs.Limits.{most_states, most_symbols, empty_set};
ghost use Rattle.delegates.specs.Alike.{delegate_in};
ghost use Rattle.delegates.specs.mirror.Answer.{delegate_means};
ghost use Rattle.delegates.specs.mirror.Classes.{final, follow as follow_of, single_at, starts_of};
ghost use Rattle.delegates.specs.mirror.Refinement.{same_in, least_of, round_of, changes, classes_of, first_in_class, cell_in};

use masks::StateNumber;
use subsets::SetNumber;

// The delegate of each state, 32 where it has none, zeros after them, and how many states are their
// own delegate.
#[derive(Clone, Copy)]
pub struct Starts {
    pub delegates: [u8; limits::STATES],
    pub startcount: u8,
}

// The delegate of a state, or that it has none.
#[derive(Clone, Copy)]
pub enum DelegateAnswer {
    State(StateNumber),
    None,
}

// The delegate of state q, in a list of delegates.
pub fn delegate_at(delegates: &[u8; limits::STATES], q: StateNumber) -> DelegateAnswer
    requires { q.0 < most_states }
    ensures { delegate_means result ≡ delegate_in delegates.now q.0 }
{
    let i = q.0 as usize;
    let delegate = delegates[i];
    if delegate < limits::NO_DELEGATE {
        DelegateAnswer::State(StateNumber(delegate))
    } else {
        DelegateAnswer::None
    }
}

// Whether the set holds a final state.
fn is_final(sets: &[u32; limits::SETS], finals: u32, set: SetNumber) -> bool
    ensures { result ≡ final sets.now finals set.0 }
{
    let s = set.0 as usize;
    if s < limits::SETS {
        masks::meets(sets[s], finals)
    } else {
        false
    }
}

// The set to which the symbol leads from the set.
fn follow(next: &[u16; limits::CELLS], set: SetNumber, symbol: usize) -> SetNumber
    requires { symbol < most_symbols }
    ensures { result.0 ≡ follow_of next.now set.0 symbol }
{
    let s = set.0 as usize;
    if limits::SETS <= s {
        return SetNumber(limits::EMPTY);
    }
    let to = next[s * limits::SYMBOLS + symbol];
    if to < limits::EMPTY {
        SetNumber(to)
    } else {
        SetNumber(limits::EMPTY)
    }
}

// Whether the sets t and s are in one class, both final or neither, and their successors by each
// symbol in one class.
fn same(
    sets: &[u32; limits::SETS],
    next: &[u16; limits::CELLS],
    finals: u32,
    k: usize,
    class: &[u16; limits::CLASSES],
    t: SetNumber,
    s: SetNumber,
) -> bool
    requires { (k ≤ most_symbols) × (t.0 ≤ empty_set) × (s.0 ≤ empty_set) }
    ensures { result ≡ same_in sets.now next.now finals k class.now t.0 s.0 }
{
    let i = t.0 as usize;
    let j = s.0 as usize;
    if class[i] != class[j] {
        return false;
    }
    let f = is_final(sets, finals, t);
    let g = is_final(sets, finals, s);
    if f != g {
        return false;
    }
    for a in 0..k {
        let x = follow(next, t, a);
        let y = follow(next, s, a);
        let u = x.0 as usize;
        let v = y.0 as usize;
        if class[u] != class[v] {
            return false;
        }
    }
    true
}

// The class of set s in the next round. No set below its class in this one is in it, so the search
// starts there: over all rounds a set passes each lower one once. Not a range: of any classes, one
// may lie above s, and is the answer then.
fn least(
    sets: &[u32; limits::SETS],
    next: &[u16; limits::CELLS],
    finals: u32,
    k: usize,
    class: &[u16; limits::CLASSES],
    s: SetNumber,
) -> SetNumber
    requires { (k ≤ most_symbols) × (s.0 ≤ empty_set) }
    ensures { result.0 ≡ least_of sets.now next.now finals k class.now s.0 }
{
    let i = s.0 as usize;
    let mut t = class[i];
    while t < s.0 {
        if same(sets, next, finals, k, class, SetNumber(t), s) {
            return SetNumber(t);
        }
        t += 1;
    }
    SetNumber(t)
}

// One round of refinement: whether the class of some set changed.
fn round(
    sets: &[u32; limits::SETS],
    next: &[u16; limits::CELLS],
    finals: u32,
    k: usize,
    class: &[u16; limits::CLASSES],
    new: &mut [u16; limits::CLASSES],
) -> bool
    requires { k ≤ most_symbols }
    ensures { (new.new ≡ round_of sets.now next.now finals k class.now)
        × (result ≡ changes sets.now next.now finals k class.now) }
{
    let mut changed = false;
    for s in 0..=limits::EMPTY {
        let i = s as usize;
        let to = least(sets, next, finals, k, class, SetNumber(s));
        let from = class[i];
        new[i] = to.0;
        if from != to.0 {
            changed = true;
        }
    }
    changed
}

// The class of each set, and at 512 that of the empty set: rounds until nothing changes, from one
// class of all sets.
fn refine(
    sets: &[u32; limits::SETS],
    next: &[u16; limits::CELLS],
    finals: u32,
    k: usize,
) -> [u16; limits::CLASSES]
    requires { k ≤ most_symbols }
    ensures { result ≡ classes_of sets.now next.now finals k }
{
    let mut class: [u16; limits::CLASSES] = [0; limits::CLASSES];
    let mut new: [u16; limits::CLASSES] = [0; limits::CLASSES];
    loop {
        let changed = round(sets, next, finals, k, &class, &mut new);
        if changed {
            class = new;
        } else {
            return class;
        }
    }
}

// The number of {q}, or 512 where it stands for the empty set.
fn single(singles: &[u16; limits::STATES], q: StateNumber) -> SetNumber
    requires { q.0 < most_states }
    ensures { result.0 ≡ single_at singles.now q.0 }
{
    let i = q.0 as usize;
    let set = singles[i];
    if set < limits::EMPTY {
        SetNumber(set)
    } else {
        SetNumber(limits::EMPTY)
    }
}

// The lowest state in the class of q; own has the class of each state up to q.
fn lowest(own: &[u16; limits::STATES], q: StateNumber) -> StateNumber
    requires { q.0 < most_states }
    ensures { result.0 ≡ first_in_class own.now q.0 }
{
    let j = q.0 as usize;
    let class = own[j];
    for p in 0..q.0 {
        let i = p as usize;
        if own[i] == class {
            return StateNumber(p);
        }
    }
    q
}

// The delegate of q as a list of delegates says it: none where the class of q is that of the empty
// set, from which no text is accepted.
fn delegate_cell(own: &[u16; limits::STATES], empty: u16, q: StateNumber) -> u8
    requires { q.0 < most_states }
    ensures { result ≡ cell_in own.now empty q.0 }
{
    let i = q.0 as usize;
    if own[i] == empty {
        return limits::NO_DELEGATE;
    }
    let delegate = lowest(own, q);
    delegate.0
}

// The delegates of n states, by the classes of their sets over k symbols; singles has the number of
// {q} for each state q, and one at or above 512 counts as the empty set.
pub fn merge_starts(
    sets: &[u32; limits::SETS],
    next: &[u16; limits::CELLS],
    singles: &[u16; limits::STATES],
    finals: u32,
    n: u8,
    k: u8,
) -> Starts
    ensures { result ≡ starts_of sets.now next.now finals singles.now n k }
{
    let states = n.min(limits::MOST_STATES) as usize;
    let symbols = k.min(limits::MOST_SYMBOLS) as usize;
    let class = refine(sets, next, finals, symbols);
    let empty = class[limits::SETS];
    let mut own: [u16; limits::STATES] = [0; limits::STATES];
    let mut delegates: [u8; limits::STATES] = [0; limits::STATES];
    let mut starts: u8 = 0;
    for q in 0..states {
        let set = single(singles, StateNumber(q as u8));
        let x = set.0 as usize;
        own[q] = class[x];
        let delegate = delegate_cell(&own, empty, StateNumber(q as u8));
        delegates[q] = delegate;
        if delegate as usize == q {
            starts += 1;
        }
    }
    Starts {
        delegates,
        startcount: starts,
    }
}
