// The board of a tray: what is read of it, and a band stored and withdrawn. Any value of any field
// is taken: numbers that are too large count as the largest that are allowed, and a width of 0
// as 1.
#![tactic(auto)]

ghost use Rattle.std.specs.Prelude.{◌≡◌, false, ◌≤◌, ◌<◌, get_or};
ghost use Rattle.trays.specs.Sizes.{most_width, most_bands, most_rows};
ghost use Rattle.trays.specs.Calls.{not_rows};
ghost use Rattle.trays.specs.Boards.{width_of, bands_of, count_in, is_empty, empty_board, band_set, filled_at, cleared_at, empty_bands};

use trays::TrayBoard;

// How many bands there are.
pub fn bands_of(board: TrayBoard) -> usize
    ensures { result ≡ bands_of board }
{
    (board.bands as usize).min(trays::BANDS)
}

// How many events a row has: 1 to 16.
pub fn width_of(board: TrayBoard) -> usize
    ensures { (result ≡ width_of board) × (1 ≤ result) × (result ≤ most_width) }
{
    if board.width < 1 {
        return 1;
    }
    (board.width as usize).min(trays::WIDTH)
}

// How many rows the band has: 64 at most.
pub fn row_count(rows: &[u8; trays::BANDS], band: usize) -> usize
    requires { band < most_bands }
    ensures { (result ≡ count_in rows.now band) × (result ≤ most_rows) }
{
    rows[band].min(trays::MOST_ROWS) as usize
}

// Whether the band is not there.
pub fn is_empty(board: TrayBoard, band: usize) -> bool
    requires { band < most_bands }
    ensures { result ≡ is_empty board band }
{
    board.filled[band] == 0
}

// A board with all bands empty; none where the number of bands is 0.
pub fn empty_board(width: u8, bands: u8) -> TrayBoard
    ensures { result ≡ empty_board width bands }
{
    let filled = [0u8; trays::BANDS];
    let rows = [0u8; trays::BANDS];
    let cells = [0u8; trays::CELLS];
    TrayBoard {
        width,
        bands,
        filled,
        rows,
        cells,
    }
}

// Whether the bytes are not whole rows of the board's width, or over 64 of them (39).
pub fn not_rows(board: TrayBoard, bytes: &[u8]) -> bool
    ensures { result ≡ not_rows (width_of board) bytes.now }
{
    let width = width_of(board);
    if bytes.len() % width != 0 {
        return true;
    }
    trays::ROWS < bytes.len() / width
}

// The byte, and 0 behind the last.
fn byte_at(bytes: &[u8], i: usize) -> u8
    ensures { result ≡ get_or bytes.now i 0 }
{
    if i < bytes.len() { bytes[i] } else { 0 }
}

// The cells of the band have the bytes, and zeros behind them.
fn set_band(cells: &mut [u8; trays::CELLS], band: usize, bytes: &[u8])
    requires { band < most_bands }
    ensures { cells.new ≡ band_set cells.old band bytes.now }
{
    for i in 0..trays::BAND {
        cells[band * trays::BAND + i] = byte_at(bytes, i);
    }
}

// The band has the bytes, which are whole rows, at most 64 and maybe none.
pub fn fill(board: TrayBoard, band: usize, bytes: &[u8]) -> TrayBoard
    requires { (band < most_bands) × (not_rows (width_of board) bytes.now ≡ false) }
    ensures { result ≡ filled_at board band bytes.now }
{
    let width = width_of(board);
    let rows = bytes.len() / width;
    let mut filled = board;
    filled.filled[band] = 1;
    filled.rows[band] = rows as u8;
    set_band(&mut filled.cells, band, bytes);
    filled
}

// The band is empty: no rows, and zeros.
pub fn clear(board: TrayBoard, band: usize) -> TrayBoard
    requires { band < most_bands }
    ensures { result ≡ cleared_at board band }
{
    let mut cleared = board;
    cleared.filled[band] = 0;
    cleared.rows[band] = 0;
    let none = [0u8; 0];
    set_band(&mut cleared.cells, band, &none);
    cleared
}

// How many bands are empty.
pub fn empty_bands(board: TrayBoard) -> u8
    ensures { result ≡ empty_bands board }
{
    let bands = bands_of(board);
    board::count_empty(&board.filled, bands)
}
