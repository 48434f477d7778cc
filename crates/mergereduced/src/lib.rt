// Two rules made one after both are reduced, of the pairs alone that are reached and live, and
// reduced again. Any numbers may stand in the rules.
#![tactic(auto)]

ghost use Rattle.std.specs.Prelude.{◌≡◌, ◌+◌, ◌*◌, ◌^◌, ◌≤◌, ◌<◌, max};
ghost use Rattle.base.specs.Lists.{list_from};
ghost use Rattle.limits.specs.Limits.{most_states, most_symbols, target_cells};
ghost use Rattle.std.specs.Int.Bits.{bit_and, bit_or};
ghost use Rattle.masks.specs.Masks.{bit, has, mask_of};
ghost use Rattle.masks.specs.Turns.{rank, turns};
ghost use Rattle.automaton.specs.Rules.{WellFormed};
ghost use Rattle.delegates.specs.mirror.Classes.{first_from};
ghost use Rattle.merging.specs.declared.Way.TheVariants.{Both, Either, Interleaving};
ghost use Rattle.merging.specs.Merged.{states_of, pairs, beside, set_of, targets_of};
ghost use Rattle.merging.specs.Merging.{merge_outcome};
ghost use Rattle.merge.specs.mirror.Asked.{Masks};
ghost use Rattle.mergereduce.specs.Trimmed.{spread, nth as nth_of, trimmed_by};
ghost use Rattle.mergereduce.specs.MergeReduced.{reduced_or_own, initial_pairs, final_pairs, pair_targets, kept_pairs, merge_reduced_of};
ghost use Rattle.mergereduced.specs.mirror.Asked.{most_pairs, set_in, symbols_to, symbols_of, symbols_at, link_in, link_by, fresh_in, Sized, Tabled, ArcAsked, Few, Listed, places_in, cell_in, paired_of};

use automaton::Rule;
use base::Refusal;
use masks::StateNumber;
use merging::Way;

// The most pairs of a state of each rule.
pub const PAIRS: usize = limits::STATES * limits::STATES;

// Whether p is the pair of a member of a and one of b.
fn in_pairs(a: u32, b: u32, n1: usize, n2: usize, p: usize) -> bool
    requires { Masks a b n1 n2 × Sized n1 n2 × (p < n1 * n2) }
    ensures { result ≡ has (pairs a b n2) p }
{
    let x = p / n2;
    let y = p % n2;
    if masks::member(a, StateNumber(x as u8)) {
        return masks::member(b, StateNumber(y as u8));
    }
    false
}

// Whether p is a member of a, or one of b after the n1 states of the first rule.
fn in_beside(a: u32, b: u32, n1: usize, n2: usize, p: usize) -> bool
    requires { Masks a b n1 n2 × Sized n1 n2 × (p < n1 + n2) }
    ensures { result ≡ has (beside a b n1) p }
{
    if p < n1 {
        return masks::member(a, StateNumber(p as u8));
    }
    masks::member(b, StateNumber((p - n1) as u8))
}

// Whether q is one of the initial or final states of the result, from those of the two rules.
fn in_set(way: Way, n1: usize, n2: usize, a: u32, b: u32, q: usize) -> bool
    requires { Masks a b n1 n2 × Sized n1 n2 × (q < states_of way n1 n2) }
    ensures { result ≡ has (set_of way n1 n2 a b) q }
{
    match way {
        Way::Both => in_pairs(a, b, n1, n2, q),
        Way::Either => in_beside(a, b, n1, n2, q),
        Way::Interleaving => in_pairs(a, b, n1, n2, q),
    }
}

// Whether both members move from the pair q to the pair p by the symbol s.
fn both_move(
    n1: usize,
    n2: usize,
    t1: &[u32; limits::TARGETS],
    t2: &[u32; limits::TARGETS],
    q: usize,
    s: usize,
    p: usize,
) -> bool
    requires { ArcAsked Both n1 n2 t1.now t2.now q s p }
    ensures { result ≡ has (targets_of Both n1 n2 t1.now t2.now q s) p }
{
    let a = merge::mask_at(t1, q / n2, s);
    let b = merge::mask_at(t2, q % n2, s);
    in_pairs(a, b, n1, n2, p)
}

// Whether a state moves in its own rule from q to p by the symbol s.
fn own_moves(
    n1: usize,
    n2: usize,
    t1: &[u32; limits::TARGETS],
    t2: &[u32; limits::TARGETS],
    q: usize,
    s: usize,
    p: usize,
) -> bool
    requires { ArcAsked Either n1 n2 t1.now t2.now q s p }
    ensures { result ≡ has (targets_of Either n1 n2 t1.now t2.now q s) p }
{
    if q < n1 {
        let a = merge::mask_at(t1, q, s);
        return in_beside(a, 0, n1, n2, p);
    }
    let b = merge::mask_at(t2, q - n1, s);
    in_beside(0, b, n1, n2, p)
}

// Whether one member moves alone from the pair q to the pair p by the symbol s.
fn one_moves(
    n1: usize,
    n2: usize,
    t1: &[u32; limits::TARGETS],
    t2: &[u32; limits::TARGETS],
    q: usize,
    s: usize,
    p: usize,
) -> bool
    requires { ArcAsked Interleaving n1 n2 t1.now t2.now q s p }
    ensures { result ≡ has (targets_of Interleaving n1 n2 t1.now t2.now q s) p }
{
    let x = q / n2;
    let y = q % n2;
    let a = merge::mask_at(t1, x, s);
    let b = merge::mask_at(t2, y, s);
    let own1 = masks::singleton(StateNumber(x as u8));
    let own2 = masks::singleton(StateNumber(y as u8));
    if in_pairs(a, own2, n1, n2, p) {
        return true;
    }
    in_pairs(own1, b, n1, n2, p)
}

// Whether the result has an arc from q to p by the symbol s.
fn arc(
    way: Way,
    n1: usize,
    n2: usize,
    t1: &[u32; limits::TARGETS],
    t2: &[u32; limits::TARGETS],
    q: usize,
    s: usize,
    p: usize,
) -> bool
    requires { ArcAsked way n1 n2 t1.now t2.now q s p }
    ensures { result ≡ has (targets_of way n1 n2 t1.now t2.now q s) p }
{
    match way {
        Way::Both => both_move(n1, n2, t1, t2, q, s, p),
        Way::Either => own_moves(n1, n2, t1, t2, q, s, p),
        Way::Interleaving => one_moves(n1, n2, t1, t2, q, s, p),
    }
}

// The symbols by which an arc leads from x to y.
fn symbols_to(t: &[u32; limits::TARGETS], x: usize, y: usize) -> u16
    requires { (x < most_states) × (y < most_states) }
    ensures { result ≡ symbols_to t.now x y }
{
    let mut out: u16 = 0;
    for s in 0..limits::SYMBOLS {
        if masks::member(merge::mask_at(t, x, s), StateNumber(y as u8)) {
            out = out | masks::only_symbol(s);
        }
    }
    out
}

// For every two states x and y, at x * 32 + y, the symbols by which an arc leads from x to y.
fn symbols_of(t: &[u32; limits::TARGETS]) -> [u16; PAIRS]
    ensures { result ≡ symbols_of t.now }
{
    let mut out = [0u16; PAIRS];
    for (cell, symbols) in out.iter_mut().enumerate() {
        *symbols = symbols_to(t, cell / limits::STATES, cell % limits::STATES);
    }
    out
}

// The symbols that such a list has for x and y.
fn symbols_at(m: &[u16; PAIRS], x: usize, y: usize) -> u16
    requires { (x < most_states) × (y < most_states) }
    ensures { result ≡ symbols_at m.now x y }
{
    m[x * limits::STATES + y]
}

// Whether both members move from the pair q to the pair p by one symbol.
fn both_link(n1: usize, n2: usize, m1: &[u16; PAIRS], m2: &[u16; PAIRS], q: usize, p: usize) -> bool
    requires { Sized n1 n2 × (q < n1 * n2) × (p < n1 * n2) }
    ensures { result ≡ link_in Both n1 n2 m1.now m2.now q p }
{
    let a = symbols_at(m1, q / n2, p / n2);
    let b = symbols_at(m2, q % n2, p % n2);
    masks::meets(a as u32, b as u32)
}

// Whether a state moves in its own rule from q to p.
fn own_link(n1: usize, n2: usize, m1: &[u16; PAIRS], m2: &[u16; PAIRS], q: usize, p: usize) -> bool
    requires { Sized n1 n2 × (q < n1 + n2) × (p < n1 + n2) }
    ensures { result ≡ link_in Either n1 n2 m1.now m2.now q p }
{
    if q < n1 {
        if p < n1 {
            return symbols_at(m1, q, p) != 0;
        }
        return false;
    }
    if p < n1 {
        return false;
    }
    symbols_at(m2, q - n1, p - n1) != 0
}

// Whether one member moves alone from the pair q to the pair p.
fn one_link(n1: usize, n2: usize, m1: &[u16; PAIRS], m2: &[u16; PAIRS], q: usize, p: usize) -> bool
    requires { Sized n1 n2 × (q < n1 * n2) × (p < n1 * n2) }
    ensures { result ≡ link_in Interleaving n1 n2 m1.now m2.now q p }
{
    let x = q / n2;
    let y = q % n2;
    let z = p / n2;
    let w = p % n2;
    if y == w {
        if symbols_at(m1, x, z) != 0 {
            return true;
        }
    }
    if x == z {
        return symbols_at(m2, y, w) != 0;
    }
    false
}

// Whether the result has an arc from q to p.
fn link(
    way: Way,
    n1: usize,
    n2: usize,
    m1: &[u16; PAIRS],
    m2: &[u16; PAIRS],
    q: usize,
    p: usize,
) -> bool
    requires { Sized n1 n2 × (q < states_of way n1 n2) × (p < states_of way n1 n2) }
    ensures { result ≡ link_in way n1 n2 m1.now m2.now q p }
{
    match way {
        Way::Both => both_link(n1, n2, m1, m2, q, p),
        Way::Either => own_link(n1, n2, m1, m2, q, p),
        Way::Interleaving => one_link(n1, n2, m1, m2, q, p),
    }
}

// Whether an arc leads from q to p, or from p to q where it goes back.
fn linked(
    forth: bool,
    way: Way,
    n1: usize,
    n2: usize,
    m1: &[u16; PAIRS],
    m2: &[u16; PAIRS],
    q: usize,
    p: usize,
) -> bool
    requires { Sized n1 n2 × (q < states_of way n1 n2) × (p < states_of way n1 n2) }
    ensures { result ≡ link_by forth (link_in way n1 n2 m1.now m2.now) q p }
{
    if forth {
        return link(way, n1, n2, m1, m2, q, p);
    }
    link(way, n1, n2, m1, m2, p, q)
}

// The set with all that q is linked to.
fn with_links(
    forth: bool,
    way: Way,
    n1: usize,
    n2: usize,
    m1: &[u16; PAIRS],
    m2: &[u16; PAIRS],
    set: [u8; PAIRS],
    q: usize,
) -> [u8; PAIRS]
    requires { Sized n1 n2 × (q < states_of way n1 n2) }
    ensures { set_in result ≡ bit_or (set_in set) (mask_of (link_by forth (link_in way n1 n2 m1.now m2.now) q) (states_of way n1 n2)) }
{
    let n = merge::states(way, n1, n2);
    let mut out = set;
    for p in 0..n {
        if out[p] != 1 {
            if linked(forth, way, n1, n2, m1, m2, q, p) {
                out[p] = 1;
            }
        }
    }
    out
}

// The first member of the set that is not done; n where there is none.
fn fresh(set: &[u8; PAIRS], done: &[u8; PAIRS], n: usize) -> usize
    requires { n ≤ most_pairs }
    ensures { result ≡ first_from (fresh_in (set_in set.now) (set_in done.now)) 0 n }
{
    for q in 0..n {
        if set[q] == 1 {
            if done[q] != 1 {
                return q;
            }
        }
    }
    n
}

// How many numbers below n are in the set.
fn count(set: &[u8; PAIRS], n: usize) -> usize
    requires { n ≤ most_pairs }
    ensures { result ≡ rank (set_in set.now) n }
{
    let mut out: usize = 0;
    for q in 0..n {
        if set[q] == 1 {
            out += 1;
        }
    }
    out
}

// The set with all that its members lead to, by any number of links: each member's links are added
// once.
fn closed(
    forth: bool,
    way: Way,
    n1: usize,
    n2: usize,
    m1: &[u16; PAIRS],
    m2: &[u16; PAIRS],
    start: [u8; PAIRS],
) -> [u8; PAIRS]
    requires { Sized n1 n2 × (set_in start < 2 ^ states_of way n1 n2) }
    ensures { set_in result ≡ turns (spread (link_by forth (link_in way n1 n2 m1.now m2.now)) (states_of way n1 n2)) (set_in start) (states_of way n1 n2) }
{
    let n = merge::states(way, n1, n2);
    let mut set = start;
    let mut done = [0u8; PAIRS];
    let mut q = fresh(&set, &done, n);
    while q < n {
        set = with_links(forth, way, n1, n2, m1, m2, set, q);
        done[q] = 1;
        q = fresh(&set, &done, n);
    }
    set
}

// A cell of the initial or final states of the result.
fn start_cell(way: Way, n1: usize, n2: usize, a: u32, b: u32, q: usize) -> u8
    requires { Masks a b n1 n2 × Sized n1 n2 }
    ensures { result ≡ bit (set_of way n1 n2 a b) q }
{
    if q < merge::states(way, n1, n2) {
        if in_set(way, n1, n2, a, b, q) {
            return 1;
        }
    }
    0
}

// The initial or final states of the result, from those of the two rules.
fn start_of(way: Way, n1: usize, n2: usize, a: u32, b: u32) -> [u8; PAIRS]
    requires { Masks a b n1 n2 × Sized n1 n2 }
    ensures { set_in result ≡ set_of way n1 n2 a b }
{
    let mut out = [0u8; PAIRS];
    for (q, member) in out.iter_mut().enumerate() {
        *member = start_cell(way, n1, n2, a, b, q);
    }
    out
}

// A cell of what is in both sets.
fn both_cell(a: &[u8; PAIRS], b: &[u8; PAIRS], q: usize) -> u8
    requires { q < most_pairs }
    ensures { result ≡ bit (bit_and (set_in a.now) (set_in b.now)) q }
{
    if a[q] == 1 {
        if b[q] == 1 {
            return 1;
        }
    }
    0
}

// What is in both sets.
fn both_of(a: &[u8; PAIRS], b: &[u8; PAIRS]) -> [u8; PAIRS]
    ensures { set_in result ≡ bit_and (set_in a.now) (set_in b.now) }
{
    let mut out = [0u8; PAIRS];
    for (q, member) in out.iter_mut().enumerate() {
        *member = both_cell(a, b, q);
    }
    out
}

// The member of the set with p members below it.
fn nth(set: &[u8; PAIRS], n: usize, p: usize) -> usize
    requires { n ≤ most_pairs }
    ensures { result ≡ nth_of n (set_in set.now) p }
{
    let mut below: usize = 0;
    for q in 0..n {
        if set[q] == 1 {
            if below == p {
                return q;
            }
            below += 1;
        }
    }
    n
}

// The rule reduced, or the rule itself where that is refused.
fn reduced_or_own(rule: Rule) -> Rule
    ensures { result ≡ reduced_or_own rule }
{
    match reduce::reduce(rule) {
        Ok(reduced) => reduced.rule,
        Err(_) => rule,
    }
}

// The pairs, or states of both rules, that are reached and live.
fn kept_pairs(way: Way, one: Rule, two: Rule) -> [u8; PAIRS]
    requires { WellFormed one × WellFormed two }
    ensures { set_in result ≡ kept_pairs way one two }
{
    let n1 = one.n as usize;
    let n2 = two.n as usize;
    let t1 = one.targets;
    let t2 = two.targets;
    let m1 = symbols_of(&t1);
    let m2 = symbols_of(&t2);
    let initials = start_of(way, n1, n2, one.initials, two.initials);
    let finals = start_of(way, n1, n2, one.finals, two.finals);
    let reached = closed(true, way, n1, n2, &m1, &m2, initials);
    let live = closed(false, way, n1, n2, &m1, &m2, finals);
    both_of(&reached, &live)
}

// The states that stay, in their order; n where there are no more.
fn listed(set: &[u8; PAIRS], n: usize) -> [usize; limits::STATES]
    requires { n ≤ most_pairs }
    ensures { result ≡ list_from 0 most_states (nth_of n (set_in set.now)) }
{
    let mut out = [0usize; limits::STATES];
    for (p, pair) in out.iter_mut().enumerate() {
        *pair = nth(set, n, p);
    }
    out
}

// The new numbers of the initial or final states that stay, which are the first c of the list.
fn set_mask(
    way: Way,
    n1: usize,
    n2: usize,
    a: u32,
    b: u32,
    list: &[usize; limits::STATES],
    c: usize,
) -> u32
    requires { Masks a b n1 n2 × Sized n1 n2 × Listed way n1 n2 list.now c }
    ensures { result ≡ places_in list.now c (set_of way n1 n2 a b) }
{
    let mut out: u32 = 0;
    for p in 0..c {
        if in_set(way, n1, n2, a, b, list[p]) {
            out = masks::union(out, masks::singleton(StateNumber(p as u8)));
        }
    }
    out
}

// The new numbers of the targets of q by the symbol s that stay.
fn arc_mask(
    way: Way,
    n1: usize,
    n2: usize,
    t1: &[u32; limits::TARGETS],
    t2: &[u32; limits::TARGETS],
    list: &[usize; limits::STATES],
    c: usize,
    q: usize,
    s: usize,
) -> u32
    requires { Tabled n1 n2 t1.now t2.now × Listed way n1 n2 list.now c × (q < states_of way n1 n2) × (s < most_symbols) }
    ensures { result ≡ places_in list.now c (targets_of way n1 n2 t1.now t2.now q s) }
{
    let mut out: u32 = 0;
    for p in 0..c {
        if arc(way, n1, n2, t1, t2, q, s, list[p]) {
            out = masks::union(out, masks::singleton(StateNumber(p as u8)));
        }
    }
    out
}

// A cell of the new table: 0 for what is no state of it.
fn cell_of(
    way: Way,
    n1: usize,
    n2: usize,
    t1: &[u32; limits::TARGETS],
    t2: &[u32; limits::TARGETS],
    list: &[usize; limits::STATES],
    c: usize,
    cell: usize,
) -> u32
    requires { Tabled n1 n2 t1.now t2.now × Listed way n1 n2 list.now c }
    ensures { result ≡ cell_in (targets_of way n1 n2 t1.now t2.now) list.now c cell }
{
    let p = cell / limits::SYMBOLS;
    if p < c {
        return arc_mask(
            way,
            n1,
            n2,
            t1,
            t2,
            list,
            c,
            list[p],
            cell % limits::SYMBOLS,
        );
    }
    0
}

// The new table.
fn table_of(
    way: Way,
    n1: usize,
    n2: usize,
    t1: &[u32; limits::TARGETS],
    t2: &[u32; limits::TARGETS],
    list: &[usize; limits::STATES],
    c: usize,
) -> [u32; limits::TARGETS]
    requires { Tabled n1 n2 t1.now t2.now × Listed way n1 n2 list.now c }
    ensures { result ≡ list_from 0 target_cells (cell_in (targets_of way n1 n2 t1.now t2.now) list.now c) }
{
    let mut table = [0u32; limits::TARGETS];
    for (cell, mask) in table.iter_mut().enumerate() {
        *mask = cell_of(way, n1, n2, t1, t2, list, c, cell);
    }
    table
}

// The number of new states: one at least.
fn size_of(c: usize) -> u8
    requires { c ≤ most_states }
    ensures { result ≡ max 1 c }
{
    if c < 1 { 1 } else { c as u8 }
}

// The rule of the states in the set, of which there are c.
fn trimmed(way: Way, one: Rule, two: Rule, set: &[u8; PAIRS], n: usize, c: usize) -> Rule
    requires { WellFormed one × WellFormed two × Few way one.n two.n (set_in set.now) n c }
    ensures { result ≡ trimmed_by n one.k (initial_pairs way one two) (final_pairs way one two) (pair_targets way one two) (set_in set.now) }
{
    let n1 = one.n as usize;
    let n2 = two.n as usize;
    let t1 = one.targets;
    let t2 = two.targets;
    let size = size_of(c);
    let list = listed(set, n);
    let initials = set_mask(way, n1, n2, one.initials, two.initials, &list, c);
    let finals = set_mask(way, n1, n2, one.finals, two.finals, &list, c);
    let targets = table_of(way, n1, n2, &t1, &t2, &list, c);
    Rule {
        n: size,
        k: one.k,
        initials,
        finals,
        targets,
    }
}

// The pairs of two rules that are reached and live, made a rule and reduced; refused where they are
// more than 32.
fn paired(way: Way, one: Rule, two: Rule) -> Result<Rule, Refusal>
    requires { WellFormed one × WellFormed two }
    ensures { merge_outcome result ≡ paired_of way one two }
{
    let set = kept_pairs(way, one, two);
    let n = merge::states(way, one.n as usize, two.n as usize);
    let c = count(&set, n);
    if limits::STATES < c {
        return Err(Refusal::TooManyMerged);
    }
    let made = trimmed(way, one, two, &set, n, c);
    Ok(reduced_or_own(made))
}

// The two rules, reduced, made one of the pairs that are reached and live, and reduced; or the first
// condition that holds.
pub fn merge_reduced(way: Way, one: Rule, two: Rule) -> Result<Rule, Refusal>
    ensures { merge_outcome result ≡ merge_reduced_of way one two }
{
    rulecheck::check_rule(one)?;
    rulecheck::check_rule(two)?;
    if one.k != two.k {
        return Err(Refusal::OtherSymbols);
    }
    let a = reduced_or_own(one);
    let b = reduced_or_own(two);
    paired(way, a, b)
}
