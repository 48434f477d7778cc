// Where a tray goes wrong: the first row that is not accepted, else the first column that can no
// longer become accepted, with the row by which it is lost. Nothing is changed, and it is known
// before every band is there.
#![tactic(auto)]

ghost use Rattle.std.specs.Prelude.{◌≡◌, cond, ◌+◌, ◌*◌, ◌≤◌, ◌<◌, eqb, length, get_or, drop};
ghost use Rattle.std.proofs.Math.Option.{none, some};
ghost use Rattle.masks.specs.Masks.{shares};
ghost use Rattle.automaton.specs.Successor.{after};
ghost use Rattle.trays.specs.Sizes.{most_width, most_bands, most_rows, tray_cells};
ghost use Rattle.trays.specs.Rows.{rows_of, rows_up_to, column_of};
ghost use Rattle.trays.specs.Boards.{band_in, is_empty};
ghost use Rattle.faults.specs.First.{or_else};
ghost use Rattle.faults.specs.Faulting.{short_at, finding_means, fault_means, found_means, walk_means, way_by, band_wrong, rows_wrong, band_stuck, column_stuck, columns_by, before_empty, beyond_rows, fault_of};

use automaton::Rule;
use base::Refusal;
use trays::{Tray, TrayBoard};

// The band and the row that is not accepted; the column that is lost, with the band and the row by
// which it is; the column that stopped too early; or none of these, with the number of bands that
// stand before the first empty one.
#[derive(Clone, Copy, Debug, PartialEq, Eq)]
pub enum TrayFault {
    Row { band: u8, row: u8 },
    Column { column: u8, band: u8, row: u8 },
    Short(u8),
    Open(u8),
}

// The first of the rows that begin at the cell that is not accepted. They are those of that band.
fn band_fault(
    rule: Rule,
    cells: &[u8],
    from: usize,
    rows: usize,
    width: usize,
    band: u8,
) -> Option<TrayFault>
    requires { (from + rows * width ≤ length cells.now) × (rows ≤ most_rows) }
    ensures { found_means result ≡ band_wrong rule band (rows_of width rows (drop from cells.now)) }
{
    let mut at = from;
    for i in 0..rows {
        let end = at + width;
        let set = trayverdict::set_after(&rule.targets, rule.initials, &cells[at..end]);
        if !masks::meets(set, rule.finals) {
            return Some(TrayFault::Row { band, row: i as u8 });
        }
        at = end;
    }
    None
}

// The first row of the bands that is not accepted.
fn row_fault(
    rule: Rule,
    cells: &[u8],
    rows: &[u8; trays::BANDS],
    width: usize,
    bands: usize,
) -> Option<TrayFault>
    requires { (length cells.now ≡ tray_cells) × (width ≤ most_width) × (bands ≤ most_bands) }
    ensures { found_means result ≡ rows_wrong rule (band_in width rows.now cells.now) bands }
{
    for p in 0..bands {
        let count = traybands::row_count(rows, p);
        if let Some(fault) = band_fault(rule, cells, p * trays::BAND, count, width, p as u8) {
            return Some(fault);
        }
    }
    None
}

// Walks a column over the rows of a band that begin at the cell, from the set, until no state of
// the mask `live` is left.
fn walk_band(
    targets: &[u32; limits::TARGETS],
    live: u32,
    set: u32,
    cells: &[u8],
    from: usize,
    rows: usize,
    width: usize,
    column: usize,
    band: u8,
) -> Result<u32, TrayFault>
    requires { (from + rows * width ≤ length cells.now) × (rows ≤ most_rows) × (width ≤ most_width) × (column < width) }
    ensures { walk_means result ≡ way_by (band_stuck targets.now live column set band (rows_of width rows (drop from cells.now))) (after targets.now set (column_of column (rows_of width rows (drop from cells.now)))) }
{
    let mut reached = set;
    let mut at = from;
    for i in 0..rows {
        reached = automaton::successor(targets, reached, cells[at + column]);
        if !masks::meets(reached, live) {
            return Err(TrayFault::Column {
                column: column as u8,
                band,
                row: i as u8,
            });
        }
        at += width;
    }
    Ok(reached)
}

// Walks a column through the bands, until no state of the mask `live` is left.
fn walk_column(
    targets: &[u32; limits::TARGETS],
    live: u32,
    initials: u32,
    cells: &[u8],
    rows: &[u8; trays::BANDS],
    width: usize,
    bands: usize,
    column: usize,
) -> Result<u32, TrayFault>
    requires { (length cells.now ≡ tray_cells) × (width ≤ most_width) × (bands ≤ most_bands) × (column < width) }
    ensures { walk_means result ≡ way_by (column_stuck targets.now live column initials (band_in width rows.now cells.now) bands) (after targets.now initials (column_of column (rows_up_to (band_in width rows.now cells.now) bands))) }
{
    if !masks::meets(initials, live) {
        return Err(TrayFault::Column {
            column: column as u8,
            band: 0,
            row: 0,
        });
    }
    let mut reached = initials;
    for p in 0..bands {
        let count = traybands::row_count(rows, p);
        reached = walk_band(
            targets,
            live,
            reached,
            cells,
            p * trays::BAND,
            count,
            width,
            column,
            p as u8,
        )?;
    }
    Ok(reached)
}

// The column that was found before, or this one where the set after it has no final state.
fn or_short(earlier: Option<TrayFault>, set: u32, finals: u32, column: u8) -> Option<TrayFault>
    ensures { found_means result ≡ or_else (found_means earlier) (cond (shares set finals) none (some (short_at column))) }
{
    match earlier {
        Some(fault) => Some(fault),
        None => {
            if masks::meets(set, finals) {
                None
            } else {
                Some(TrayFault::Short(column))
            }
        }
    }
}

// The first column that is lost; else, where the board is full, the first that is not accepted.
fn column_fault(
    rule: Rule,
    cells: &[u8],
    rows: &[u8; trays::BANDS],
    width: usize,
    bands: usize,
    full: bool,
) -> Option<TrayFault>
    requires { (length cells.now ≡ tray_cells) × (width ≤ most_width) × (bands ≤ most_bands) }
    ensures { found_means result ≡ columns_by rule (band_in width rows.now cells.now) width bands full }
{
    let live = live::live_states(&rule.targets, rule.finals);
    let mut short = None;
    for c in 0..width {
        match walk_column(
            &rule.targets,
            live,
            rule.initials,
            cells,
            rows,
            width,
            bands,
            c,
        ) {
            Err(fault) => return Some(fault),
            Ok(set) => short = or_short(short, set, rule.finals, c as u8),
        }
    }
    if full { short } else { None }
}

// How many bands stand before the first empty one.
fn before_empty(filled: &[u8; trays::BANDS], bands: usize) -> usize
    requires { bands ≤ most_bands }
    ensures { (result ≡ before_empty (λ p. eqb (get_or filled.now p 0) 0) bands) × (result ≤ bands) }
{
    for p in 0..bands {
        if filled[p] == 0 {
            return p;
        }
    }
    bands
}

// What is found where every row is accepted.
fn beyond_rows(rule: Rule, board: TrayBoard, width: usize, bands: usize) -> TrayFault
    requires { (width ≤ most_width) × (bands ≤ most_bands) }
    ensures { finding_means result ≡ beyond_rows rule width (band_in width board.rows board.cells) (is_empty board) bands }
{
    let filled = board.filled;
    let cells = board.cells;
    let rows = board.rows;
    let before = before_empty(&filled, bands);
    let found = column_fault(rule, &cells, &rows, width, before, before == bands);
    match found {
        Some(fault) => fault,
        None => TrayFault::Open(before as u8),
    }
}

// Where the tray goes wrong, or how far it is there.
pub fn fault(tray: Tray) -> Result<TrayFault, Refusal>
    ensures { fault_means result ≡ fault_of tray }
{
    let board = tray.board;
    if board.bands == 0 {
        return Err(Refusal::NoBoard);
    }
    let width = traybands::width_of(board);
    let bands = traybands::bands_of(board);
    let cells = board.cells;
    let rows = board.rows;
    let row = tray.row;
    match row_fault(row, &cells, &rows, width, bands) {
        Some(fault) => Ok(fault),
        None => {
            let column = tray.column;
            Ok(beyond_rows(column, board, width, bands))
        }
    }
}
