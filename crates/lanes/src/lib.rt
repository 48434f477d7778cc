// Runs over a table of row offsets, eight at a time in lock step: a walk waits for its table and
// not for the processor, so eight of them take as long as one.
#![tactic(auto)]

ghost use Rattle.std.specs.Prelude.{◌≡◌, ◌<◌, ◌≤◌, length, get_or, take, replicate};
ghost use Rattle.lanes.specs.mirror.Offsets.{empty_row, offset_cells, lane_count, row_of, offsets_of, row_looked, rows_end, rows_looked, RowTable, Rows, Living};

// How many runs walk together.
pub const LANES: usize = 8;

// The row offset of the empty set, whose row follows those of the sets with a number.
pub const EMPTY_ROW: usize = limits::CELLS;

// The same, as a cell of a table of row offsets.
pub const EMPTY_CELL: u16 = EMPTY_ROW as u16;

// The cells of a table of row offsets: a row for each set, and one for the empty set.
pub const OFFSETS: usize = limits::CELLS + limits::SYMBOLS;

// The row offset of the set that a cell of a next-set table names.
pub fn row_of(cell: u16) -> u16
    ensures { result ≡ row_of cell }
{
    if cell < limits::EMPTY {
        cell * limits::SYMBOLS as u16
    } else {
        EMPTY_CELL
    }
}

// A cell of a table of row offsets, as a place in it.
pub fn offset(cell: u16) -> usize
    ensures { result ≡ cell }
{
    cell as usize
}

// Fills the table of row offsets for a next-set table, which begins with the empty set's in every
// cell.
pub fn fill_offsets(next: &[u16; limits::CELLS], t: &mut [u16; OFFSETS])
    requires { t.old ≡ replicate offset_cells empty_row }
    ensures { t.new ≡ offsets_of next.now }
{
    for c in 0..limits::CELLS {
        t[c] = row_of(next[c]);
    }
}

// One step from the row offset, in the table from the symbol's column on.
fn hop(column: &[u16], row: usize) -> usize
    requires { row < length column.now }
    ensures { result ≡ get_or column.now row 0 }
{
    offset(column[row])
}

// All of n where the set is not empty, else nothing.
fn span(row: usize, n: usize) -> usize
    ensures { (result ≤ n) × (0 < result → row < empty_row) × (result < n → empty_row ≤ row) }
{
    if row < EMPTY_ROW {
        return n;
    }
    0
}

// Eight runs over the bytes, as far as the first of them looks a successor up; answers how far.
// The first alone is tested at each byte. Not a `for`: the end moves here when the first dies, so
// that a byte costs one test.
fn lead(t: &[u16], part: &[u8], lane: &mut [usize]) -> usize
    requires { RowTable t.now × Rows lane.old × (length lane.old ≡ lane_count) }
    ensures value { result ≡ row_looked t.now part.now (get_or lane.old 0 0) }
    ensures lane_after { lane.new ≡ rows_end t.now (take result part.now) lane.old lane_count }
{
    let mut r0 = lane[0];
    let mut r1 = lane[1];
    let mut r2 = lane[2];
    let mut r3 = lane[3];
    let mut r4 = lane[4];
    let mut r5 = lane[5];
    let mut r6 = lane[6];
    let mut r7 = lane[7];
    let mut i: usize = 0;
    let mut end = span(r0, part.len());
    while i < end {
        let symbol = (part[i] % limits::MOST_SYMBOLS) as usize;
        let column = &t[symbol..];
        r0 = hop(column, r0);
        r1 = hop(column, r1);
        r2 = hop(column, r2);
        r3 = hop(column, r3);
        r4 = hop(column, r4);
        r5 = hop(column, r5);
        r6 = hop(column, r6);
        r7 = hop(column, r7);
        i += 1;
        if r0 >= EMPTY_ROW {
            end = i;
        }
    }
    lane[0] = r0;
    lane[1] = r1;
    lane[2] = r2;
    lane[3] = r3;
    lane[4] = r4;
    lane[5] = r5;
    lane[6] = r6;
    lane[7] = r7;
    i
}

// One of the eight, the first excepted, that is not empty; 8 where there is none.
fn living(lane: &[usize]) -> usize
    requires { length lane.now ≡ lane_count }
    ensures { Living lane.now result }
{
    for k in 1..LANES {
        if lane[k] < EMPTY_ROW {
            return k;
        }
    }
    LANES
}

// Eight runs over the bytes, of which the first looks nothing up: its lane is lent to one that
// lives, which leads until it dies, and then to another, until none is left. Answers for how many
// bytes a successor is looked up.
fn follow(t: &[u16], part: &[u8], lane: &mut [usize]) -> usize
    requires { RowTable t.now × Rows lane.old × (length lane.old ≡ lane_count) × (row_looked t.now part.now (get_or lane.old 0 0) ≡ 0) }
    ensures value { result ≡ rows_looked t.now part.now lane.old lane_count }
    ensures lane_after { lane.new ≡ rows_end t.now part.now lane.old lane_count }
{
    let first = lane[0];
    let mut i: usize = 0;
    while i < part.len() {
        let k = living(lane);
        if k == LANES {
            break;
        }
        let row = lane[k];
        lane[0] = row;
        i += lead(t, &part[i..], lane);
    }
    lane[0] = first;
    i
}

// Eight runs over the bytes, to their end or to the byte after which all eight are empty; answers
// for how many bytes a successor is looked up.
pub fn walk_eight(t: &[u16], part: &[u8], lane: &mut [usize]) -> usize
    requires { RowTable t.now × Rows lane.old × (length lane.old ≡ lane_count) }
    ensures value { result ≡ rows_looked t.now part.now lane.old lane_count }
    ensures lane_after { lane.new ≡ rows_end t.now part.now lane.old lane_count }
{
    let i = lead(t, part, lane);
    i + follow(t, &part[i..], lane)
}
