// Makes the failure form of a judge's next-set table.
#![tactic(auto)]

ghost use Rattle.std.specs.Prelude.{◌≡◌, ◌*◌, ◌≤◌, ◌<◌, replicate};
ghost use Rattle.limits.specs.Limits.{most_symbols, most_sets, table_cells};
ghost use Rattle.forms.specs.Form.{equal_cells, failure_of, keeps_from, kept_mask, packed_cells, failures, masks, form_of};
ghost use Rattle.formmaker.specs.Making.{no_form, made_outcome, made_of};

use base::Refusal;
use calls::Judge;
use forms::Form;

// In how many symbols two sets have equal cells.
fn equal_cells(next: &[u16; limits::CELLS], k: usize, t: usize, u: usize) -> usize
    requires { (k ≤ most_symbols) × (t < most_sets) × (u < most_sets) }
    ensures { result ≡ equal_cells next.now k t u }
{
    let mut count: usize = 0;
    for s in 0..k {
        if next[t * limits::SYMBOLS + s] == next[u * limits::SYMBOLS + s] {
            count += 1;
        }
    }
    count
}

// The lower-numbered set with most equal cells, the lowest on ties.
fn failure_of(next: &[u16; limits::CELLS], k: usize, t: usize) -> usize
    requires { (k ≤ most_symbols) × (t < most_sets) }
    ensures { (result ≤ t) × (result ≡ failure_of next.now k t) }
{
    let mut best: usize = 0;
    let mut most = equal_cells(next, k, t, 0);
    for u in 0..t {
        let equal = equal_cells(next, k, t, u);
        if most < equal {
            best = u;
            most = equal;
        }
    }
    best
}

// Whether the cell of set t and symbol s is kept.
fn keep(next: &[u16; limits::CELLS], t: usize, failure: usize, s: usize) -> bool
    requires { (t < most_sets) × (failure < most_sets) × (s < most_symbols) }
    ensures { result ≡ keeps_from next.now t failure s }
{
    if t == 0 {
        return true;
    }
    next[t * limits::SYMBOLS + s] != next[failure * limits::SYMBOLS + s]
}

// The cells of set t that are not equal to those of its failure set; all of them for set 0.
fn kept_mask(next: &[u16; limits::CELLS], k: usize, t: usize, failure: usize) -> u16
    requires { (k ≤ most_symbols) × (t < most_sets) × (failure < most_sets) × (failure ≡ failure_of next.now k t) }
    ensures { result ≡ kept_mask next.now k t }
{
    let mut mask: u16 = 0;
    for s in 0..k {
        if keep(next, t, failure, s) {
            mask = mask | masks::only_symbol(s);
        }
    }
    mask
}

// The failure set and the kept mask of each set, into arrays of zeros.
fn mark_sets(
    next: &[u16; limits::CELLS],
    sets: usize,
    k: usize,
    failure: &mut [u16; limits::SETS],
    kept: &mut [u16; limits::SETS],
)
    requires { (sets ≤ most_sets) × (k ≤ most_symbols) × (failure.old ≡ replicate most_sets 0) × (kept.old ≡ replicate most_sets 0) }
    ensures { (failure.new ≡ failures sets k next.now) × (kept.new ≡ masks sets k next.now) }
{
    for t in 0..sets {
        let f = failure_of(next, k, t);
        let mask = kept_mask(next, k, t, f);
        failure[t] = f as u16;
        kept[t] = mask;
    }
}

// The kept cells of the sets, in order, into an array of zeros.
fn pack(
    next: &[u16; limits::CELLS],
    sets: usize,
    kept: &[u16; limits::SETS],
    cells: &mut [u16; limits::CELLS],
)
    requires { (sets ≤ most_sets) × (cells.old ≡ replicate table_cells 0) }
    ensures { cells.new ≡ packed_cells kept.now next.now sets }
{
    let mut at: usize = 0;
    for c in 0..sets * limits::SYMBOLS {
        if forms::has_symbol(kept[c / limits::SYMBOLS], c % limits::SYMBOLS) {
            cells[at] = next[c];
            at += 1;
        }
    }
}

// The form of a table.
fn to_form(next: &[u16; limits::CELLS], sets: u16, symbols: u8) -> Form
    requires { (sets ≤ most_sets) × (symbols ≤ most_symbols) }
    ensures { result ≡ form_of sets symbols next.now }
{
    let mut failure = [0u16; limits::SETS];
    let mut kept = [0u16; limits::SETS];
    let mut cells = [0u16; limits::CELLS];
    mark_sets(
        next,
        sets as usize,
        symbols as usize,
        &mut failure,
        &mut kept,
    );
    pack(next, sets as usize, &kept, &mut cells);
    Form {
        sets,
        symbols,
        failure,
        kept,
        cells,
    }
}

// Zeros in every field.
pub fn no_form() -> Form
    ensures { result ≡ no_form }
{
    let failure = [0u16; limits::SETS];
    let kept = [0u16; limits::SETS];
    let cells = [0u16; limits::CELLS];
    Form {
        sets: 0,
        symbols: 0,
        failure,
        kept,
        cells,
    }
}

// The failure form of the judge's next-set table, or refused where it has no rule (20). Any value is
// taken: more than 512 sets count as 512, and more than 16 symbols as 16.
pub fn make_form(judge: Judge) -> Result<Form, Refusal>
    ensures { made_outcome result ≡ made_of judge }
{
    let built = judge.built;
    if built.n == 0 {
        return Err(Refusal::NoRule);
    }
    let next = built.next;
    let sets = (built.setcount as usize).min(limits::SETS) as u16;
    let symbols = built.k.min(limits::MOST_SYMBOLS);
    Ok(to_form(&next, sets, symbols))
}
