// Prints a failure form into a lent buffer.
#![tactic(auto)]

ghost use Rattle.std.specs.Prelude.{◌≡◌, [], ◌∷◌, ◌++◌, ◌+◌, ◌*◌, ◌≤◌, ◌<◌, length};
ghost use Rattle.limits.specs.Limits.{most_symbols, most_sets, table_cells};
ghost use Rattle.base.specs.Lists.{joined};
ghost use Rattle.text.specs.Numerals.{hex};
ghost use Rattle.text.specs.Writing.{Wrote};
ghost use Rattle.ruletext.specs.RuleText.{space, field};
ghost use Rattle.formtext.specs.FormText.{bits_in, first_cell, cells_text, line_text, set_line, head_line, form_text, text_for, most_bytes};

use forms::Form;
use subsets::SetNumber;

// Room for the printed text of any form.
pub const ROOM: usize = 36 + 79 * limits::SETS;

// How many bits the mask has.
fn bits_in(mask: u16) -> usize
    ensures { (result ≤ most_symbols) × (result ≡ bits_in mask) }
{
    let mut n: usize = 0;
    for s in 0..limits::SYMBOLS {
        if forms::has_symbol(mask, s) {
            n += 1;
        }
    }
    n
}

// A number with a space before it.
fn put_number(out: &mut [u8], at: usize, n: u16) -> usize
    requires { at + 6 ≤ length out.old }
    ensures { (Wrote out.old at (field n) out.new result) × (result ≤ at + 6) }
{
    let digits = text::put_byte(out, at, b' ');
    text::put_decimal(out, digits, n as u64)
}

// A word and a number.
fn put_named(out: &mut [u8], at: usize, word: &[u8], n: u16) -> usize
    requires { at + (length word.now + 6) ≤ length out.old }
    ensures { (Wrote out.old at (word.now ++ field n) out.new result) × (result ≤ at + (length word.now + 6)) }
{
    let number = text::put_bytes(out, at, word);
    put_number(out, number, n)
}

// The first line: how many sets, symbols and kept cells there are.
fn put_head(out: &mut [u8], sets: u16, symbols: u16, kept: u16) -> usize
    requires { 36 ≤ length out.old }
    ensures { (Wrote out.old 0 (head_line sets symbols kept) out.new result) × (result ≤ 36) }
{
    let a = put_named(out, 0, b"sets", sets);
    let b = put_named(out, a, b" symbols", symbols);
    let c = put_named(out, b, b" kept", kept);
    text::put_byte(out, c, b'\n')
}

// So many of the packed cells, from one on.
fn put_cells(
    out: &mut [u8],
    start: usize,
    cells: &[u16; limits::CELLS],
    first: usize,
    n: usize,
) -> usize
    requires { (n ≤ most_symbols) × (first + n ≤ table_cells) × (start + 64 ≤ length out.old) }
    ensures { (Wrote out.old start (cells_text cells.now first n) out.new result) × (result ≤ start + 64) }
{
    let mut at = start;
    for i in 0..n {
        let to = cells[first + i];
        at = ruletext::put_cell(out, at, SetNumber(to));
    }
    at
}

// The mask of a set with a space before it.
fn put_mask(out: &mut [u8], at: usize, mask: u16) -> usize
    requires { at + 5 ≤ length out.old }
    ensures { (Wrote out.old at ((space ∷ []) ++ hex 4 mask) out.new result) × (result ≤ at + 5) }
{
    let digits = text::put_byte(out, at, b' ');
    text::put_hex(out, digits, 4, mask as u64)
}

// The line of set t, whose n kept cells begin at the packed cell `first`.
fn put_set(
    out: &mut [u8],
    at: usize,
    t: SetNumber,
    failure: SetNumber,
    mask: u16,
    cells: &[u16; limits::CELLS],
    first: usize,
    n: usize,
) -> usize
    requires { (t.0 < most_sets) × (n ≤ most_symbols) × (first + n ≤ table_cells) × (at + 79 ≤ length out.old) }
    ensures { (Wrote out.old at (line_text t.0 failure.0 mask cells.now first n) out.new result) × (result ≤ at + 79) }
{
    let a = text::put_decimal(out, at, t.0 as u64);
    let b = put_number(out, a, failure.0);
    let c = put_mask(out, b, mask);
    let d = put_cells(out, c, cells, first, n);
    text::put_byte(out, d, b'\n')
}

// The lines of the first count sets.
fn put_sets(
    out: &mut [u8],
    start: usize,
    failure: &[u16; limits::SETS],
    kept: &[u16; limits::SETS],
    cells: &[u16; limits::CELLS],
    count: usize,
) -> usize
    requires { (count ≤ most_sets) × (start + 79 * count ≤ length out.old) }
    ensures { (Wrote out.old start (joined (set_line failure.now kept.now cells.now) count) out.new result) × (result ≤ start + 79 * count) }
{
    let mut at = start;
    let mut first: usize = 0;
    for t in 0..count {
        let mask = kept[t];
        let n = bits_in(mask);
        let fails = failure[t];
        let set = SetNumber(t as u16);
        at = put_set(out, at, set, SetNumber(fails), mask, cells, first, n);
        first += n;
    }
    at
}

// How many cells the first count sets keep.
fn count_kept(kept: &[u16; limits::SETS], count: usize) -> usize
    requires { count ≤ most_sets }
    ensures { (result ≤ table_cells) × (result ≡ first_cell kept.now count) }
{
    let mut n: usize = 0;
    for t in 0..count {
        n += bits_in(kept[t]);
    }
    n
}

// The text of a form, from the start.
fn put_form(out: &mut [u8], form: Form) -> usize
    requires { most_bytes ≤ length out.old }
    ensures { (Wrote out.old 0 (form_text form) out.new result) × (result ≤ most_bytes) }
{
    let count = (form.sets as usize).min(limits::SETS);
    let failure = form.failure;
    let kept = form.kept;
    let cells = form.cells;
    let total = count_kept(&kept, count);
    let lines = put_head(out, count as u16, form.symbols as u16, total as u16);
    put_sets(out, lines, &failure, &kept, &cells, count)
}

// The failure form of the rule in a file, as text; or the number with which the file is refused.
pub fn print_form(file: &[u8], out: &mut [u8]) -> usize
    requires { most_bytes ≤ length out.old }
    ensures { (Wrote out.old 0 (text_for file.now) out.new result) × (result ≤ most_bytes) }
{
    match formfile::form_in(file) {
        Ok(form) => put_form(out, form),
        Err(refusal) => answers::put_refused(out, 0, refusal.number()),
    }
}
