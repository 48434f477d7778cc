// The way back from a failure form to the next-set table.
#![tactic(auto)]

ghost use Rattle.std.specs.Prelude.{◌≡◌, cond, ◌+◌, ◌*◌, ◌^◌, ◌≤◌, ◌<◌, leb, ltb, get_or, replicate};
ghost use Rattle.std.proofs.Math.Option.{none};
ghost use Rattle.base.specs.Answers.{result_number};
ghost use Rattle.base.specs.Lists.{list_from};
ghost use Rattle.limits.specs.Limits.{most_symbols, most_sets, empty_set, table_cells};
ghost use Rattle.forms.specs.Form.{how_many, kept_at};
ghost use Rattle.forms.specs.Back.{not_below, some_not_below, first_lacks, stray_bits, lacking, some_lacking, bad_numbers, back_number, back_cell, no_table, back_outcome, back_of};
ghost use Rattle.formback.specs.mirror.Parts.{form_by};

use base::Refusal;
use forms::{Form, Table};

// Not 1 to 512 sets and 1 to 16 symbols.
fn bad_numbers(sets: usize, k: usize) -> bool
    ensures { result ≡ bad_numbers sets k }
{
    if rulecheck::outside(sets, limits::SETS) {
        return true;
    }
    rulecheck::outside(k, limits::SYMBOLS)
}

fn wide(x: u16) -> usize
    ensures { result ≡ x }
{
    x as usize
}

// Set t is above 0 and its failure set is not below it.
fn not_below(failure: &[u16; limits::SETS], t: usize) -> bool
    requires { t < most_sets }
    ensures { result ≡ not_below failure.now t }
{
    if t == 0 {
        return false;
    }
    t <= wide(failure[t])
}

// Some set above 0 has a failure set that is not below it.
fn some_not_below(failure: &[u16; limits::SETS], sets: usize) -> bool
    requires { sets ≤ most_sets }
    ensures { result ≡ some_not_below sets failure.now }
{
    for t in 0..sets {
        if not_below(failure, t) {
            return true;
        }
    }
    false
}

// A cell is left out of set 0.
fn first_lacks(kept: &[u16; limits::SETS], k: usize) -> bool
    requires { k ≤ most_symbols }
    ensures { result ≡ first_lacks k kept.now }
{
    for s in 0..k {
        if !forms::has_symbol(kept[0], s) {
            return true;
        }
    }
    false
}

// The mask has a bit at k or above.
fn beyond(mask: u16, k: usize) -> bool
    requires { k ≤ most_symbols }
    ensures { result ≡ leb (2 ^ k) mask }
{
    1u32 << k <= mask as u32
}

// Some mask has a bit for no symbol.
fn stray_bits(kept: &[u16; limits::SETS], sets: usize, k: usize) -> bool
    requires { (sets ≤ most_sets) × (k ≤ most_symbols) }
    ensures { result ≡ stray_bits sets k kept.now }
{
    for t in 0..sets {
        if beyond(kept[t], k) {
            return true;
        }
    }
    false
}

// How many cells are kept.
fn count_kept(kept: &[u16; limits::SETS], sets: usize) -> usize
    requires { sets ≤ most_sets }
    ensures { (result ≤ table_cells) × (result ≡ how_many (kept_at kept.now) (sets * most_symbols)) }
{
    let mut n: usize = 0;
    for c in 0..sets * limits::SYMBOLS {
        if forms::has_symbol(kept[c / limits::SYMBOLS], c % limits::SYMBOLS) {
            n += 1;
        }
    }
    n
}

// The cell names a set that the table lacks.
fn is_lacking(sets: usize, cell: u16) -> bool
    ensures { result ≡ lacking sets cell }
{
    if cell == limits::EMPTY {
        return false;
    }
    sets <= cell as usize
}

// Some kept cell names a set that the table lacks.
fn some_lacking(cells: &[u16; limits::CELLS], sets: usize, count: usize) -> bool
    requires { count ≤ table_cells }
    ensures { result ≡ some_lacking sets count cells.now }
{
    for i in 0..count {
        if is_lacking(sets, cells[i]) {
            return true;
        }
    }
    false
}

// Whether the form of these parts is accepted.
fn check(
    sets: usize,
    k: usize,
    failure: &[u16; limits::SETS],
    kept: &[u16; limits::SETS],
    cells: &[u16; limits::CELLS],
) -> Result<(), Refusal>
    ensures { result_number result ≡ back_number (form_by sets k failure.now kept.now cells.now) }
{
    if bad_numbers(sets, k) {
        return Err(Refusal::NoForm);
    }
    if some_not_below(failure, sets) {
        return Err(Refusal::NoForm);
    }
    if first_lacks(kept, k) {
        return Err(Refusal::NoForm);
    }
    if stray_bits(kept, sets, k) {
        return Err(Refusal::NoForm);
    }
    if some_lacking(cells, sets, count_kept(kept, sets)) {
        return Err(Refusal::NoForm);
    }
    Ok(())
}

// A cell that set t does not keep: its failure set's, or 512 for no symbol.
fn inherited(
    k: usize,
    failure: &[u16; limits::SETS],
    next: &[u16; limits::CELLS],
    t: usize,
    s: usize,
) -> u16
    requires { (t < most_sets) × (s < most_symbols) × (s < k → get_or failure.now t 0 < most_sets) }
    ensures { result ≡ cond (ltb s k) (get_or next.now (get_or failure.now t 0 * most_symbols + s) 0) empty_set }
{
    if s < k {
        return next[wide(failure[t]) * limits::SYMBOLS + s];
    }
    limits::EMPTY
}

// The cells of the table, set by set, into an array of 512s. A failure set is below its set, so its
// row is already there; the next kept cell is the one that stands behind those taken before.
fn fill(
    sets: usize,
    k: usize,
    failure: &[u16; limits::SETS],
    kept: &[u16; limits::SETS],
    cells: &[u16; limits::CELLS],
    next: &mut [u16; limits::CELLS],
)
    requires { (back_number (form_by sets k failure.now kept.now cells.now) ≡ none) × (next.old ≡ replicate table_cells empty_set) }
    ensures { next.new ≡ list_from 0 table_cells (back_cell (form_by sets k failure.now kept.now cells.now)) }
{
    let mut at: usize = 0;
    for c in 0..sets * limits::SYMBOLS {
        let t = c / limits::SYMBOLS;
        let s = c % limits::SYMBOLS;
        if forms::has_symbol(kept[t], s) {
            next[c] = cells[at];
            at += 1;
        } else {
            next[c] = inherited(k, failure, next, t, s);
        }
    }
}

// Zeros in every field.
pub fn no_table() -> Table
    ensures { result ≡ no_table }
{
    let next = [0u16; limits::CELLS];
    Table {
        sets: 0,
        symbols: 0,
        next,
    }
}

// The table of a form, or refused where it is none (40). Any value is taken.
pub fn table_of(form: Form) -> Result<Table, Refusal>
    ensures { back_outcome result ≡ back_of form }
{
    let sets = form.sets;
    let symbols = form.symbols;
    let failure = form.failure;
    let kept = form.kept;
    let cells = form.cells;
    check(sets as usize, symbols as usize, &failure, &kept, &cells)?;
    let mut next = [limits::EMPTY; limits::CELLS];
    fill(
        sets as usize,
        symbols as usize,
        &failure,
        &kept,
        &cells,
        &mut next,
    );
    Ok(Table {
        sets,
        symbols,
        next,
    })
}
