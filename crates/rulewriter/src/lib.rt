// Writing rule files: the bytes of a rule, one after the other into a lent buffer.
#![tactic(auto)]

ghost use Rattle.std.specs.Prelude.{◌≡◌, ◌++◌, ◌+◌, ◌*◌, ◌≤◌, ◌<◌, length};
ghost use Rattle.std.proofs.Math.Option.{none};
ghost use Rattle.limits.specs.Limits.{most_states, most_symbols};
ghost use Rattle.automaton.specs.Rules.{target_mask};
ghost use Rattle.rulecheck.specs.Checking.{rule_number};
ghost use Rattle.text.specs.Writing.{Wrote};
ghost use Rattle.ruleformat.specs.Writing.{half, word, header, section_of, file_of};
ghost use Rattle.rulewriter.specs.Written.{arc_to, arcs_by, states_part};

use automaton::Rule;
use masks::StateNumber;

// A number in two bytes, the lowest first.
fn put_half(out: &mut [u8], at: usize, x: usize) -> usize
    requires { (x < 65536) × (at + 2 ≤ length out.old) }
    ensures { Wrote out.old at (half x) out.new result }
{
    let a = text::put_byte(out, at, (x % 256) as u8);
    text::put_byte(out, a, (x / 256) as u8)
}

// A number in four bytes.
fn put_word(out: &mut [u8], at: usize, x: u32) -> usize
    requires { at + 4 ≤ length out.old }
    ensures { Wrote out.old at (word x) out.new result }
{
    let a = put_half(out, at, (x % 65536) as usize);
    put_half(out, a, (x / 65536) as usize)
}

// The bytes 0 to 9.
fn put_header(out: &mut [u8], n: u8, k: u8, initials: u32, finals: u32) -> usize
    requires { 10 ≤ length out.old }
    ensures { Wrote out.old 0 (header n k initials finals) out.new result }
{
    let a = text::put_byte(out, 0, n);
    let b = text::put_byte(out, a, k);
    let c = put_word(out, b, initials);
    put_word(out, c, finals)
}

// The arc by a symbol to state t, nothing where t is not in the mask.
fn put_arc(out: &mut [u8], at: usize, mask: u32, symbol: u8, t: StateNumber) -> usize
    requires { (t.0 < most_states)
        × (at + length (arc_to mask symbol t.0) ≤ length out.old) }
    ensures { Wrote out.old at
        (arc_to mask symbol t.0) out.new result }
{
    if masks::member(mask, t) {
        let a = text::put_byte(out, at, symbol);
        text::put_byte(out, a, t.0)
    } else {
        at
    }
}

// The arcs by a symbol to the states below n that are in the mask.
fn put_arcs(out: &mut [u8], start: usize, n: u8, mask: u32, symbol: u8) -> usize
    requires { (n ≤ most_states) × (start + length (arcs_by n mask symbol) ≤ length out.old) }
    ensures { Wrote out.old start
        (arcs_by n mask symbol) out.new result }
{
    let mut at = start;
    for t in 0..n {
        at = put_arc(out, at, mask, symbol, StateNumber(t));
    }
    at
}

// The section of state q: its arcs, by symbol and then target.
fn put_section(
    out: &mut [u8],
    start: usize,
    targets: &[u32; limits::TARGETS],
    n: u8,
    k: u8,
    q: StateNumber,
) -> usize
    requires { (n ≤ most_states) × (k ≤ most_symbols) × (q.0 < most_states)
        × (start + length (section_of n k (target_mask targets.now q.0))
        ≤ length out.old) }
    ensures { Wrote out.old start
        (section_of n k (target_mask targets.now q.0)) out.new result }
{
    let mut at = start;
    for s in 0..k {
        let cell = (q.0 as usize) * limits::SYMBOLS + (s as usize);
        at = put_arcs(out, at, n, targets[cell], s);
    }
    at
}

// A pair: where a section begins, and its length in bytes.
fn put_pair(out: &mut [u8], at: usize, offset: usize, size: usize) -> usize
    requires { (offset < 65536) × (size < 65536) × (at + 4 ≤ length out.old) }
    ensures { Wrote out.old at
        (half offset ++ half size) out.new result }
{
    let a = put_half(out, at, offset);
    put_half(out, a, size)
}

// Behind the header: the pairs of the states, and behind them the sections, each with its pair.
fn put_states(out: &mut [u8], targets: &[u32; limits::TARGETS], n: u8, k: u8) -> usize
    requires { (n ≤ most_states) × (k ≤ most_symbols)
        × (10 + length (states_part n k targets.now) ≤ length out.old) }
    ensures { Wrote out.old 10
        (states_part n k targets.now) out.new result }
{
    let mut at = 10 + 4 * (n as usize);
    for q in 0..n {
        let end = put_section(out, at, targets, n, k, StateNumber(q));
        put_pair(out, 10 + 4 * (q as usize), at, end - at);
        at = end;
    }
    at
}

// The file of a rule that passes, from the start of a buffer that has room for it.
pub fn put_file(out: &mut [u8], rule: Rule) -> usize
    requires { (rule_number rule ≡ none) × (length (file_of rule) ≤ length out.old) }
    ensures { Wrote out.old 0 (file_of rule) out.new result }
{
    let targets = rule.targets;
    put_header(out, rule.n, rule.k, rule.initials, rule.finals);
    put_states(out, &targets, rule.n, rule.k)
}
