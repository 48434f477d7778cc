// The answer to a line of formtable: the cells of the table, `refused` and the number, or that the
// line is malformed.
#![tactic(auto)]

ghost use Rattle.std.specs.Prelude.{◌+◌, ◌*◌, ◌≤◌, length};
ghost use Rattle.limits.specs.Limits.{most_symbols, most_sets};
ghost use Rattle.text.specs.Writing.{Wrote};
ghost use Rattle.forms.specs.Back.{back_of};
ghost use Rattle.formline.specs.Lines.{line_in};
ghost use Rattle.tabletext.specs.Answers.{bare_cell, cell_text, cells_text, table_line, back_text, answer_text, most_answer};

use base::Refusal;
use forms::{Form, Table};
use subsets::SetNumber;

// The first cell, which has no space before it.
fn put_first(out: &mut [u8], at: usize, to: SetNumber) -> usize
    requires { at + 4 ≤ length out.old }
    ensures { Wrote out.old at (bare_cell to.0) out.new result }
{
    if to.0 < limits::EMPTY {
        text::put_decimal(out, at, to.0 as u64)
    } else {
        text::put_byte(out, at, b'-')
    }
}

// Cell c of the line.
fn put_cell(out: &mut [u8], at: usize, c: usize, to: SetNumber) -> usize
    requires { at + 4 ≤ length out.old }
    ensures { Wrote out.old at (cell_text c to.0) out.new result }
{
    if c == 0 {
        put_first(out, at, to)
    } else {
        ruletext::put_cell(out, at, to)
    }
}

// The first count cells of a table with k symbols, in order.
fn put_cells(
    out: &mut [u8],
    start: usize,
    next: &[u16; limits::CELLS],
    k: usize,
    count: usize,
) -> usize
    requires { (1 ≤ k) × (k ≤ most_symbols) × (count ≤ most_sets * k) × (start + 4 * count ≤ length out.old) }
    ensures { (Wrote out.old start (cells_text next.now k count) out.new result) × (result ≤ start + 4 * count) }
{
    let mut at = start;
    for c in 0..count {
        let to = next[c / k * limits::SYMBOLS + c % k];
        at = put_cell(out, at, c, SetNumber(to));
    }
    at
}

// A table on a line.
fn put_table(out: &mut [u8], at: usize, table: Table) -> usize
    requires { (1 ≤ table.symbols) × (table.symbols ≤ most_symbols) × (table.sets ≤ most_sets) × (at + most_answer ≤ length out.old) }
    ensures { Wrote out.old at (table_line table) out.new result }
{
    let next = table.next;
    let k = table.symbols as usize;
    let count = table.sets as usize * k;
    let end = put_cells(out, at, &next, k, count);
    text::put_byte(out, end, b'\n')
}

// What the way back from a form answers.
fn put_back(out: &mut [u8], at: usize, form: Form) -> usize
    requires { at + most_answer ≤ length out.old }
    ensures { Wrote out.old at (back_text (back_of form)) out.new result }
{
    match formback::table_of(form) {
        Ok(table) => put_table(out, at, table),
        Err(refusal) => answers::put_refused(out, at, refusal.number()),
    }
}

// The answer to a line. A number of sets or of symbols that is too great for a form as a value is
// too great for a table.
pub fn put_answer(out: &mut [u8], at: usize, line: &[u8]) -> usize
    requires { at + most_answer ≤ length out.old }
    ensures { Wrote out.old at (answer_text (line_in line.now)) out.new result }
{
    let Some(said) = formline::read_line(line) else {
        return answers::put_malformed(out, at);
    };
    match said {
        Ok(form) => put_back(out, at, form),
        Err(_) => answers::put_refused(out, at, Refusal::NoForm.number()),
    }
}
