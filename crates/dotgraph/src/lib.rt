// Draws the automaton of a rule as Graphviz text into a lent buffer. A number that is drawn has at
// most two digits.
#![tactic(auto)]

ghost use Rattle.std.specs.Prelude.{◌+◌, ◌*◌, ◌≤◌, ◌<◌, length};
ghost use Rattle.limits.specs.Limits.{most_states, most_symbols};
ghost use Rattle.base.specs.Lists.{joined};
ghost use Rattle.text.specs.Writing.{Wrote};
ghost use Rattle.dotgraph.specs.DotText.{head_lines, state_line, arrow, point_line, entry_line};
ghost use Rattle.dotgraph.specs.DotText.{initial_lines, arrow_line};
ghost use Rattle.dotgraph.specs.DotText.{arrow_lines, arrows_from, arrows_text, dot_text};
ghost use Rattle.dotgraph.specs.DotText.{most_bytes};

use automaton::Rule;
use masks::StateNumber;

fn put_head(out: &mut [u8], at: usize) -> usize
    requires { at + 48 ≤ length out.old }
    ensures { (Wrote out.old at head_lines out.new result) × (result ≤ at + 48) }
{
    let a = text::put_bytes(out, at, b"digraph rule {\n");
    let b = text::put_bytes(out, a, b"rankdir=LR;\n");
    text::put_bytes(out, b, b"node [shape=circle];\n")
}

// The line of state q.
fn put_state(out: &mut [u8], at: usize, finals: u32, q: StateNumber) -> usize
    requires { (q.0 < most_states) × (at + 25 ≤ length out.old) }
    ensures { (Wrote out.old at (state_line finals q.0) out.new result)
        × (result ≤ at + 25) }
{
    let a = dotlabels::put_number(out, at, q.0);
    if masks::member(finals, q) {
        text::put_bytes(out, a, b" [shape=doublecircle];\n")
    } else {
        text::put_bytes(out, a, b";\n")
    }
}

// The lines of the first n states.
fn put_states(out: &mut [u8], start: usize, finals: u32, n: u8) -> usize
    requires { (n ≤ most_states) × (start + 25 * n ≤ length out.old) }
    ensures { (Wrote out.old start
        (joined (state_line finals) n) out.new result)
        × (result ≤ start + 25 * n) }
{
    let mut at = start;
    for q in 0..n {
        at = put_state(out, at, finals, StateNumber(q));
    }
    at
}

// From state q to state t.
fn put_arrow(out: &mut [u8], at: usize, q: StateNumber, t: StateNumber) -> usize
    requires { (q.0 < most_states) × (t.0 < most_states) × (at + 8 ≤ length out.old) }
    ensures { (Wrote out.old at (arrow q.0 t.0) out.new result)
        × (result ≤ at + 8) }
{
    let a = dotlabels::put_number(out, at, q.0);
    let b = text::put_bytes(out, a, b" -> ");
    dotlabels::put_number(out, b, t.0)
}

fn put_point(out: &mut [u8], at: usize, q: StateNumber) -> usize
    requires { (q.0 < most_states) × (at + 19 ≤ length out.old) }
    ensures { (Wrote out.old at (point_line q.0) out.new result)
        × (result ≤ at + 19) }
{
    let a = text::put_byte(out, at, b'i');
    let b = dotlabels::put_number(out, a, q.0);
    text::put_bytes(out, b, b" [shape=point];\n")
}

fn put_entry(out: &mut [u8], at: usize, q: StateNumber) -> usize
    requires { (q.0 < most_states) × (at + 11 ≤ length out.old) }
    ensures { (Wrote out.old at (entry_line q.0) out.new result)
        × (result ≤ at + 11) }
{
    let a = text::put_byte(out, at, b'i');
    let b = put_arrow(out, a, q, q);
    text::put_bytes(out, b, b";\n")
}

// The two lines of an initial state, nothing for another.
fn put_initial(out: &mut [u8], at: usize, initials: u32, q: StateNumber) -> usize
    requires { (q.0 < most_states) × (at + 30 ≤ length out.old) }
    ensures { (Wrote out.old at
        (initial_lines initials q.0) out.new result)
        × (result ≤ at + 30) }
{
    if masks::member(initials, q) {
        let a = put_point(out, at, q);
        put_entry(out, a, q)
    } else {
        at
    }
}

// The lines of the initial states below n.
fn put_initials(out: &mut [u8], start: usize, initials: u32, n: u8) -> usize
    requires { (n ≤ most_states) × (start + 30 * n ≤ length out.old) }
    ensures { (Wrote out.old start
        (joined (initial_lines initials) n) out.new result)
        × (result ≤ start + 30 * n) }
{
    let mut at = start;
    for q in 0..n {
        at = put_initial(out, at, initials, StateNumber(q));
    }
    at
}

// The line of the arrow from q to t.
fn put_line(
    out: &mut [u8],
    at: usize,
    targets: &[u32; limits::TARGETS],
    k: u8,
    q: StateNumber,
    t: StateNumber,
) -> usize
    requires { (k ≤ most_symbols) × (q.0 < most_states) × (t.0 < most_states)
        × (at + 69 ≤ length out.old) }
    ensures { (Wrote out.old at
        (arrow_line targets.now k q.0 t.0) out.new result)
        × (result ≤ at + 69) }
{
    let a = put_arrow(out, at, q, t);
    let b = text::put_bytes(out, a, b" [label=\"");
    let c = dotlabels::put_label(out, b, targets, k, q, t);
    text::put_bytes(out, c, b"\"];\n")
}

// The same, nothing where no symbol leads from q to t.
fn put_target(
    out: &mut [u8],
    at: usize,
    targets: &[u32; limits::TARGETS],
    k: u8,
    q: StateNumber,
    t: StateNumber,
) -> usize
    requires { (k ≤ most_symbols) × (q.0 < most_states) × (t.0 < most_states)
        × (at + 69 ≤ length out.old) }
    ensures { (Wrote out.old at
        (arrow_lines targets.now k q.0 t.0) out.new result)
        × (result ≤ at + 69) }
{
    if dotlabels::any_below(targets, k, q, t, k) {
        put_line(out, at, targets, k, q, t)
    } else {
        at
    }
}

// The arrows from q to states below n.
fn put_targets(
    out: &mut [u8],
    start: usize,
    targets: &[u32; limits::TARGETS],
    n: u8,
    k: u8,
    q: StateNumber,
) -> usize
    requires { (n ≤ most_states) × (k ≤ most_symbols) × (q.0 < most_states)
        × (start + 69 * n ≤ length out.old) }
    ensures { (Wrote out.old start
        (arrows_from targets.now n k q.0) out.new result)
        × (result ≤ start + 69 * n) }
{
    let mut at = start;
    for t in 0..n {
        at = put_target(out, at, targets, k, q, StateNumber(t));
    }
    at
}

// All arrows.
fn put_arrows(out: &mut [u8], start: usize, targets: &[u32; limits::TARGETS], n: u8, k: u8) -> usize
    requires { (n ≤ most_states) × (k ≤ most_symbols)
        × (start + 69 * most_states * n ≤ length out.old) }
    ensures { (Wrote out.old start
        (arrows_text targets.now n k) out.new result)
        × (result ≤ start + 69 * most_states * n) }
{
    let mut at = start;
    for q in 0..n {
        at = put_targets(out, at, targets, n, k, StateNumber(q));
    }
    at
}

// The drawing of a rule, from the start.
pub fn put_dot(out: &mut [u8], rule: Rule) -> usize
    requires { most_bytes ≤ length out.old }
    ensures { (Wrote out.old 0 (dot_text rule) out.new result)
        × (result ≤ most_bytes) }
{
    let n = rule.n.min(limits::MOST_STATES);
    let k = rule.k.min(limits::MOST_SYMBOLS);
    let targets = rule.targets;
    let a = put_head(out, 0);
    let b = put_states(out, a, rule.finals, n);
    let c = put_initials(out, b, rule.initials, n);
    let d = put_arrows(out, c, &targets, n, k);
    text::put_bytes(out, d, b"}\n")
}
