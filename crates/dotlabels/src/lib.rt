// Writes the label of an arrow of a drawing into a lent buffer: the symbols by which arcs lead from
// one state to another. A number that is drawn has at most two digits.
#![tactic(auto)]

ghost use Rattle.std.specs.Prelude.{◌≡◌, [], ◌∷◌, ◌++◌, ◌+◌, ◌*◌, ◌≤◌, ◌<◌, length};
ghost use Rattle.limits.specs.Limits.{most_states, most_symbols};
ghost use Rattle.base.specs.Conditions.{any_below};
ghost use Rattle.text.specs.Numerals.{decimal};
ghost use Rattle.text.specs.Writing.{Wrote};
ghost use Rattle.automaton.specs.Rules.{target_mask};
ghost use Rattle.dotlabels.specs.Labels.{leads as leadsBy, earlier as earlierOf};
ghost use Rattle.dotlabels.specs.Labels.{first_piece, last_piece, piece, label};

use masks::StateNumber;

// A number of at most two digits.
pub fn put_number(out: &mut [u8], at: usize, n: u8) -> usize
    requires { (n < 100) × (at + 2 ≤ length out.old) }
    ensures { (Wrote out.old at (decimal n) out.new result)
        × (result ≤ at + 2) }
{
    text::put_decimal(out, at, n as u64)
}

// The mask of state q and symbol s.
fn cell(targets: &[u32; limits::TARGETS], q: StateNumber, s: u8) -> u32
    requires { (q.0 < most_states) × (s < most_symbols) }
    ensures { result ≡ target_mask targets.now q.0 s }
{
    targets[(q.0 as usize) * limits::SYMBOLS + (s as usize)]
}

// Whether an arc leads from q to t by symbol s, one of the first k.
fn leads(targets: &[u32; limits::TARGETS], k: u8, q: StateNumber, t: StateNumber, s: u8) -> bool
    requires { (k ≤ most_symbols) × (q.0 < most_states) × (t.0 < most_states) }
    ensures { result ≡ leadsBy targets.now k q.0 t.0 s }
{
    if s < k {
        masks::member(cell(targets, q, s), t)
    } else {
        false
    }
}

// Whether one leads by the symbol that is so far back from s.
fn earlier(
    targets: &[u32; limits::TARGETS],
    k: u8,
    q: StateNumber,
    t: StateNumber,
    back: u8,
    s: u8,
) -> bool
    requires { (k ≤ most_symbols) × (q.0 < most_states) × (t.0 < most_states) }
    ensures { result ≡ earlierOf (leadsBy targets.now k q.0 t.0) back s }
{
    if back <= s {
        leads(targets, k, q, t, s - back)
    } else {
        false
    }
}

// Whether one leads by a symbol below end.
pub fn any_below(
    targets: &[u32; limits::TARGETS],
    k: u8,
    q: StateNumber,
    t: StateNumber,
    end: u8,
) -> bool
    requires { (k ≤ most_symbols) × (q.0 < most_states) × (t.0 < most_states) }
    ensures { result ≡ any_below (leadsBy targets.now k q.0 t.0) end }
{
    for s in 0..end {
        if leads(targets, k, q, t, s) {
            return true;
        }
    }
    false
}

// A number after a sign.
fn put_after(out: &mut [u8], at: usize, sign: u8, n: u8) -> usize
    requires { (n < 100) × (at + 3 ≤ length out.old) }
    ensures { (Wrote out.old at ((sign ∷ []) ++ decimal n) out.new result)
        × (result ≤ at + 3) }
{
    let a = text::put_byte(out, at, sign);
    put_number(out, a, n)
}

// The first symbol of a row; more: a row came before.
fn put_first(out: &mut [u8], at: usize, more: bool, s: u8) -> usize
    requires { (s < 100) × (at + 3 ≤ length out.old) }
    ensures { (Wrote out.old at (first_piece more s) out.new result)
        × (result ≤ at + 3) }
{
    if more {
        put_after(out, at, b',', s)
    } else {
        put_number(out, at, s)
    }
}

// The last symbol of a row; range: the row has three symbols or more.
fn put_last(out: &mut [u8], at: usize, range: bool, s: u8) -> usize
    requires { (s < 100) × (at + 3 ≤ length out.old) }
    ensures { (Wrote out.old at (last_piece range s) out.new result)
        × (result ≤ at + 3) }
{
    if range {
        put_after(out, at, b'-', s)
    } else {
        put_after(out, at, b',', s)
    }
}

// What the label of the arrow from q to t has for symbol s.
fn put_piece(
    out: &mut [u8],
    at: usize,
    targets: &[u32; limits::TARGETS],
    k: u8,
    q: StateNumber,
    t: StateNumber,
    s: u8,
) -> usize
    requires { (k ≤ most_symbols) × (q.0 < most_states) × (t.0 < most_states) × (s < most_symbols)
        × (at + 3 ≤ length out.old) }
    ensures { (Wrote out.old at
        (piece (leadsBy targets.now k q.0 t.0) s) out.new result)
        × (result ≤ at + 3) }
{
    if leads(targets, k, q, t, s) {
        if earlier(targets, k, q, t, 1, s) {
            if leads(targets, k, q, t, s + 1) {
                at
            } else {
                put_last(out, at, earlier(targets, k, q, t, 2, s), s)
            }
        } else {
            put_first(out, at, any_below(targets, k, q, t, s), s)
        }
    } else {
        at
    }
}

// The label of the arrow from q to t.
pub fn put_label(
    out: &mut [u8],
    start: usize,
    targets: &[u32; limits::TARGETS],
    k: u8,
    q: StateNumber,
    t: StateNumber,
) -> usize
    requires { (k ≤ most_symbols) × (q.0 < most_states) × (t.0 < most_states)
        × (start + 3 * k ≤ length out.old) }
    ensures { (Wrote out.old start
        (label (leadsBy targets.now k q.0 t.0) k) out.new result)
        × (result ≤ start + 3 * k) }
{
    let mut at = start;
    for s in 0..k {
        at = put_piece(out, at, targets, k, q, t, s);
    }
    at
}
