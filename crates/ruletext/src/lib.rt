// Prints a built rule into a lent buffer.
#![tactic(auto)]

ghost use Rattle.std.specs.Prelude.{◌≡◌, ◌+◌, ◌*◌, ◌≤◌, ◌<◌, length};
ghost use Rattle.limits.specs.Limits.{most_states, most_symbols, most_sets};
ghost use Rattle.base.specs.Lists.{joined};
ghost use Rattle.text.specs.Writing.{Wrote};
ghost use Rattle.delegates.specs.Alike.{delegate_in};
ghost use Rattle.delegates.specs.mirror.Answer.{delegate_means};
ghost use Rattle.ruletext.specs.RuleText.{field, cell_text, row_text, set_line, head_line, delegate_text, delegates_line, rule_text, text_of};
ghost use Rattle.ruletext.specs.Printing.{text_for, most_bytes};

use base::Refusal;
use build::Built;
use delegates::DelegateAnswer;
use masks::StateNumber;
use subsets::SetNumber;

// A state's number with a space before it.
fn put_field(out: &mut [u8], at: usize, q: StateNumber) -> usize
    requires { at + 4 ≤ length out.old }
    ensures { Wrote out.old at (field q.0) out.new result }
{
    let digits = text::put_byte(out, at, b' ');
    text::put_decimal(out, digits, q.0 as u64)
}

// A cell of the next-set table.
pub fn put_cell(out: &mut [u8], at: usize, to: SetNumber) -> usize
    requires { at + 4 ≤ length out.old }
    ensures { Wrote out.old at (cell_text to.0) out.new result }
{
    let number = text::put_byte(out, at, b' ');
    if to.0 < limits::EMPTY {
        text::put_decimal(out, number, to.0 as u64)
    } else {
        text::put_byte(out, number, b'-')
    }
}

// The cells of set i for the k symbols.
pub fn put_row(
    out: &mut [u8],
    start: usize,
    next: &[u16; limits::CELLS],
    k: usize,
    i: SetNumber,
) -> usize
    requires { (k ≤ most_symbols) × (i.0 < most_sets) × (start + 4 * k ≤ length out.old) }
    ensures { Wrote out.old start (row_text next.now k i.0) out.new result }
{
    let row = i.0 as usize;
    let mut at = start;
    for s in 0..k {
        let to = next[row * limits::SYMBOLS + s];
        at = put_cell(out, at, SetNumber(to));
    }
    at
}

fn wide(x: u32) -> u64
    ensures { result ≡ x }
{
    x as u64
}

// The line of set i.
fn put_set(
    out: &mut [u8],
    at: usize,
    sets: &[u32; limits::SETS],
    next: &[u16; limits::CELLS],
    k: usize,
    i: SetNumber,
) -> usize
    requires { (k ≤ most_symbols) × (i.0 < most_sets) × (at + 77 ≤ length out.old) }
    ensures { Wrote out.old at (set_line sets.now next.now k i.0) out.new result }
{
    let row = i.0 as usize;
    let a = text::put_decimal(out, at, i.0 as u64);
    let b = text::put_byte(out, a, b' ');
    let c = text::put_hex(out, b, 8, wide(sets[row]));
    let d = put_row(out, c, next, k, i);
    text::put_byte(out, d, b'\n')
}

// The lines of the first count sets.
fn put_sets(
    out: &mut [u8],
    start: usize,
    sets: &[u32; limits::SETS],
    next: &[u16; limits::CELLS],
    k: usize,
    count: usize,
) -> usize
    requires { (k ≤ most_symbols) × (count ≤ most_sets) × (start + 77 * count ≤ length out.old) }
    ensures { Wrote out.old start (joined (set_line sets.now next.now k) count) out.new result }
{
    let mut at = start;
    for i in 0..count {
        let number = i as u16;
        at = put_set(out, at, sets, next, k, SetNumber(number));
    }
    at
}

// A state's delegate with a space before it, or - where it has none.
fn put_delegate(out: &mut [u8], at: usize, delegate: DelegateAnswer) -> usize
    requires { at + 4 ≤ length out.old }
    ensures { Wrote out.old at (delegate_text (delegate_means delegate)) out.new result }
{
    match delegate {
        DelegateAnswer::State(q) => put_field(out, at, q),
        DelegateAnswer::None => text::put_bytes(out, at, b" -"),
    }
}

// The delegates of the first n states.
fn put_fields(out: &mut [u8], start: usize, delegates: &[u8; limits::STATES], n: usize) -> usize
    requires { (n ≤ most_states) × (start + 4 * n ≤ length out.old) }
    ensures { (Wrote out.old start (joined (λ q. delegate_text (delegate_in delegates.now q)) n) out.new result) × (result ≤ start + 4 * n) }
{
    let mut at = start;
    for q in 0..n {
        let state = StateNumber(q as u8);
        let delegate = delegates::delegate_at(delegates, state);
        at = put_delegate(out, at, delegate);
    }
    at
}

fn put_delegates(out: &mut [u8], at: usize, delegates: &[u8; limits::STATES], n: usize) -> usize
    requires { (n ≤ most_states) × (at + 138 ≤ length out.old) }
    ensures { (Wrote out.old at (delegates_line delegates.now n) out.new result) × (result ≤ at + 138) }
{
    let first = text::put_bytes(out, at, b"delegates");
    let end = put_fields(out, first, delegates, n);
    text::put_byte(out, end, b'\n')
}

fn put_head(out: &mut [u8], at: usize, count: usize, starts: u8) -> usize
    requires { (count ≤ most_sets) × (at + 20 ≤ length out.old) }
    ensures { (Wrote out.old at (head_line count starts) out.new result) × (result ≤ at + 20) }
{
    let a = text::put_bytes(out, at, b"sets ");
    let b = text::put_decimal(out, a, count as u64);
    let c = text::put_bytes(out, b, b" starts ");
    let d = text::put_decimal(out, c, starts as u64);
    text::put_byte(out, d, b'\n')
}

// The text of a built rule, from the start.
fn put_rule(out: &mut [u8], built: Built) -> usize
    requires { most_bytes ≤ length out.old }
    ensures { Wrote out.old 0 (rule_text built) out.new result }
{
    let count = (built.setcount as usize).min(limits::SETS);
    let k = (built.k as usize).min(limits::SYMBOLS);
    let n = (built.n as usize).min(limits::STATES);
    let sets = built.sets;
    let next = built.next;
    let delegates = built.delegates;
    let lines = put_head(out, 0, count, built.startcount);
    let last = put_sets(out, lines, &sets, &next, k, count);
    put_delegates(out, last, &delegates, n)
}

// What building a rule answers, as text.
fn put_building(out: &mut [u8], building: Result<Built, Refusal>) -> usize
    requires { most_bytes ≤ length out.old }
    ensures { Wrote out.old 0 (text_of building) out.new result }
{
    match building {
        Ok(built) => put_rule(out, built),
        Err(refusal) => answers::put_refused(out, 0, refusal.number()),
    }
}

// The rule in a file, built, as text; or the number with which the file is refused. The buffer has
// room for the text of any file, and the whole text is written.
pub fn print_whole(file: &[u8], out: &mut [u8]) -> usize
    requires { most_bytes ≤ length out.old }
    ensures { Wrote out.old 0 (text_for file.now) out.new result }
{
    match rulefile::read(file) {
        Ok(rule) => put_building(out, build::build_rule(rule)),
        Err(refusal) => answers::put_refused(out, 0, refusal.number()),
    }
}
