// The state of a tray (document 02, R-13) and the answers of its calls. The outcome of each call is
// in specs/; crates/traycalls has the calls.
#![tactic(auto)]

use automaton::Rule;
use base::Refusal;
use calls::Sizes;

// The most events of a row.
pub const WIDTH: usize = 16;

// The most bands of a tray.
pub const BANDS: usize = 8;

// The most rows of a band.
pub const ROWS: usize = 64;

// The same, in the type in which a board has it.
pub const MOST_ROWS: u8 = ROWS as u8;

// The most bytes of a band, and the cells that are kept for each.
pub const BAND: usize = ROWS * WIDTH;

// The cells of a tray's bands.
pub const CELLS: usize = BANDS * BAND;

// The board of a tray: how many events a row has, and for each of up to 8 bands whether it is there
// (0 for empty), how many rows it has, and its bytes as they came, with zeros behind them. A board
// is there when bands is not 0. In a new one every cell is 0.
#[repr(C)]
#[derive(Clone, Copy)]
pub struct TrayBoard {
    pub width: u8,
    pub bands: u8,
    pub filled: [u8; BANDS],
    pub rows: [u8; BANDS],
    pub cells: [u8; CELLS],
}

// The state: the rule of the rows, the rule of the columns, and the board. A rule is there when its
// n is not 0; in a fresh tray every number is 0.
#[repr(C)]
#[derive(Clone, Copy)]
pub struct Tray {
    pub row: Rule,
    pub column: Rule,
    pub board: TrayBoard,
}

// So many bands are empty; or yes or no, with no count; or there is no board.
#[derive(Clone, Copy, Debug, PartialEq, Eq)]
pub enum TrayVerdict {
    Waiting(u8),
    Yes,
    No,
    Refused(Refusal),
}

// Each call that may change the state answers with the next state beside the answer.
// Of installing a rule.
#[derive(Clone, Copy)]
pub struct InstallResult {
    pub answer: Result<Sizes, Refusal>,
    pub tray: Tray,
}

// Of opening, of delivering and of withdrawing.
#[derive(Clone, Copy)]
pub struct CallResult {
    pub answer: Result<(), Refusal>,
    pub tray: Tray,
}
