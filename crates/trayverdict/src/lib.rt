// Whether every row and every column of a tray is accepted. A row and a column is walked from the
// set of initial states, successor by successor; a column goes on from band to band.
#![tactic(auto)]

ghost use Rattle.std.specs.Prelude.{◌≡◌, ◌+◌, ◌*◌, ◌≤◌, ◌<◌, length, drop};
ghost use Rattle.automaton.specs.Successor.{after};
ghost use Rattle.trays.specs.Sizes.{most_width, most_bands, tray_cells};
ghost use Rattle.trays.specs.Rows.{rows_of, rows_up_to, column_of, rows_pass, columns_pass, passes};
ghost use Rattle.trays.specs.Boards.{width_of, band_in, rows_held};

use automaton::Rule;
use trays::TrayBoard;

// The set after the text.
pub fn set_after(targets: &[u32; limits::TARGETS], set: u32, text: &[u8]) -> u32
    ensures { result ≡ after targets.now set text.now }
{
    let mut reached = set;
    for byte in text {
        reached = automaton::successor(targets, reached, *byte);
    }
    reached
}

// Whether each of the rows that begin at the cell is accepted.
fn band_passes(rule: Rule, cells: &[u8], from: usize, rows: usize, width: usize) -> bool
    requires { from + rows * width ≤ length cells.now }
    ensures { result ≡ rows_pass rule (rows_of width rows (drop from cells.now)) }
{
    let mut at = from;
    for _ in 0..rows {
        let end = at + width;
        let set = set_after(&rule.targets, rule.initials, &cells[at..end]);
        if !masks::meets(set, rule.finals) {
            return false;
        }
        at = end;
    }
    true
}

// Whether each row of each band is accepted.
fn rows_pass(
    rule: Rule,
    cells: &[u8],
    rows: &[u8; trays::BANDS],
    width: usize,
    bands: usize,
) -> bool
    requires { (length cells.now ≡ tray_cells) × (width ≤ most_width) × (bands ≤ most_bands) }
    ensures { result ≡ rows_pass rule (rows_up_to (band_in width rows.now cells.now) bands) }
{
    for p in 0..bands {
        let count = traybands::row_count(rows, p);
        if !band_passes(rule, cells, p * trays::BAND, count, width) {
            return false;
        }
    }
    true
}

// The set after the column of a band whose rows begin at the cell.
fn column_after(
    targets: &[u32; limits::TARGETS],
    set: u32,
    cells: &[u8],
    from: usize,
    rows: usize,
    width: usize,
    column: usize,
) -> u32
    requires { (from + rows * width ≤ length cells.now) × (column < width) }
    ensures { result ≡ after targets.now set (column_of column (rows_of width rows (drop from cells.now))) }
{
    let mut reached = set;
    let mut at = from;
    for _ in 0..rows {
        reached = automaton::successor(targets, reached, cells[at + column]);
        at += width;
    }
    reached
}

// The set after the column through all bands.
fn column_set(
    targets: &[u32; limits::TARGETS],
    initials: u32,
    cells: &[u8],
    rows: &[u8; trays::BANDS],
    width: usize,
    bands: usize,
    column: usize,
) -> u32
    requires { (length cells.now ≡ tray_cells) × (width ≤ most_width) × (bands ≤ most_bands) × (column < width) }
    ensures { result ≡ after targets.now initials (column_of column (rows_up_to (band_in width rows.now cells.now) bands)) }
{
    let mut reached = initials;
    for p in 0..bands {
        let count = traybands::row_count(rows, p);
        reached = column_after(
            targets,
            reached,
            cells,
            p * trays::BAND,
            count,
            width,
            column,
        );
    }
    reached
}

// Whether each column is accepted.
fn columns_pass(
    rule: Rule,
    cells: &[u8],
    rows: &[u8; trays::BANDS],
    width: usize,
    bands: usize,
) -> bool
    requires { (length cells.now ≡ tray_cells) × (width ≤ most_width) × (bands ≤ most_bands) }
    ensures { result ≡ columns_pass rule (rows_up_to (band_in width rows.now cells.now) bands) width }
{
    for c in 0..width {
        let set = column_set(&rule.targets, rule.initials, cells, rows, width, bands, c);
        if !masks::meets(set, rule.finals) {
            return false;
        }
    }
    true
}

// Whether every row is accepted by the row rule, and every column by the column rule.
pub fn says_yes(row: Rule, column: Rule, board: TrayBoard) -> bool
    ensures { result ≡ passes row column (width_of board) (rows_held board) }
{
    let width = traybands::width_of(board);
    let bands = traybands::bands_of(board);
    let cells = board.cells;
    let rows = board.rows;
    if !rows_pass(row, &cells, &rows, width, bands) {
        return false;
    }
    columns_pass(column, &cells, &rows, width, bands)
}
