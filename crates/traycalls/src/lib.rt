// A tray: six calls over one state.
#![tactic(auto)]

ghost use Rattle.std.specs.Prelude.{◌≡◌, false, ◌||◌, ◌<◌, eqb};
ghost use Rattle.base.specs.Answers.{refusal_number};
ghost use Rattle.trays.specs.Replies.{accepted, refused, install_means, verdict_means};
ghost use Rattle.trays.specs.Calls.{not_rows, foreign_to};
ghost use Rattle.trays.specs.Boards.{width_of, bands_of};
ghost use Rattle.trays.specs.mirror.Steps.{fresh, with_board, with_row, with_column, install_answer, install_outcome, call_outcome, install_of, install_row_of, install_column_of, open_of, deliver_of, withdraw_of, verdict_of};

use automaton::Rule;
use base::Refusal;
use calls::Sizes;
use trays::{CallResult, InstallResult, Tray, TrayBoard, TrayVerdict};

// A tray with no rules and no board.
pub fn new_tray() -> Tray
    ensures { result ≡ fresh }
{
    let row = rulefile::no_rule();
    let column = rulefile::no_rule();
    let board = traybands::empty_board(0, 0);
    Tray { row, column, board }
}

// The same rules with another board.
fn with_board(tray: Tray, board: TrayBoard) -> Tray
    ensures { result ≡ with_board tray board }
{
    let row = tray.row;
    let column = tray.column;
    Tray { row, column, board }
}

fn accept(tray: Tray) -> CallResult
    ensures { call_outcome result ≡ record { reply = accepted; state = tray } }
{
    CallResult {
        answer: Ok(()),
        tray,
    }
}

fn refuse(tray: Tray, refusal: Refusal) -> CallResult
    ensures { call_outcome result ≡ record { reply = refused (refusal_number refusal); state = tray } }
{
    CallResult {
        answer: Err(refusal),
        tray,
    }
}

// What an installation of the rule, which may be any value, answers.
fn answer_to(rule: Rule) -> Result<Sizes, Refusal>
    ensures { install_means result ≡ install_answer rule }
{
    rulecheck::check_rule(rule)?;
    let built = build::build_rule(rule)?;
    Ok(Sizes {
        sets: built.setcount,
        starts: built.startcount,
    })
}

// The tray with the rule for its rows, and no board.
fn with_row(tray: Tray, rule: Rule) -> Tray
    ensures { result ≡ with_row tray rule }
{
    let column = tray.column;
    let board = traybands::empty_board(0, 0);
    Tray {
        row: rule,
        column,
        board,
    }
}

// The tray with the rule for its columns, and no board.
fn with_column(tray: Tray, rule: Rule) -> Tray
    ensures { result ≡ with_column tray rule }
{
    let row = tray.row;
    let board = traybands::empty_board(0, 0);
    Tray {
        row,
        column: rule,
        board,
    }
}

// Checks and builds a rule. Accepted, it leaves the tray that has it; else the tray is as it was.
fn install(tray: Tray, rule: Rule, next: Tray) -> InstallResult
    ensures { install_outcome result ≡ install_of tray rule next }
{
    match answer_to(rule) {
        Err(refusal) => InstallResult {
            answer: Err(refusal),
            tray,
        },
        Ok(sizes) => InstallResult {
            answer: Ok(sizes),
            tray: next,
        },
    }
}

// A rule for the rows. Accepted, it replaces the former one and removes the board.
pub fn install_row(tray: Tray, rule: Rule) -> InstallResult
    ensures { install_outcome result ≡ install_row_of tray rule }
{
    install(tray, rule, with_row(tray, rule))
}

// The same for the columns.
pub fn install_column(tray: Tray, rule: Rule) -> InstallResult
    ensures { install_outcome result ≡ install_column_of tray rule }
{
    install(tray, rule, with_column(tray, rule))
}

// Whether a rule with one of these numbers of states is absent.
fn lacks_rule(row: u8, column: u8) -> bool
    ensures { result ≡ eqb row 0 || eqb column 0 }
{
    if row == 0 {
        return true;
    }
    column == 0
}

// A board of that many bands, all empty, for rows of that width; an earlier board is dropped.
pub fn open(tray: Tray, width: usize, bands: usize) -> CallResult
    ensures { call_outcome result ≡ open_of tray width bands }
{
    let row = tray.row;
    let column = tray.column;
    if lacks_rule(row.n, column.n) {
        return refuse(tray, Refusal::NoRule);
    }
    if rulecheck::outside(width, trays::WIDTH) {
        return refuse(tray, Refusal::Width);
    }
    if rulecheck::outside(bands, trays::BANDS) {
        return refuse(tray, Refusal::PlaceCount);
    }
    let board = traybands::empty_board(width as u8, bands as u8);
    accept(with_board(tray, board))
}

// Whether some byte is at or above either rule's number of symbols (13).
fn has_foreign(bytes: &[u8], row: u8, column: u8) -> bool
    ensures { result ≡ foreign_to row column bytes.now }
{
    if chunks::has_foreign(bytes, row) {
        return true;
    }
    chunks::has_foreign(bytes, column)
}

// What a delivery comes to from 13 on.
fn deliver_rows(tray: Tray, band: usize, bytes: &[u8]) -> CallResult
    requires { (tray.board.bands ≡ 0 → ⊥) × (band < bands_of tray.board) × (not_rows (width_of tray.board) bytes.now ≡ false) }
    ensures { call_outcome result ≡ deliver_of tray band bytes.now }
{
    let row = tray.row;
    let column = tray.column;
    if has_foreign(bytes, row.k, column.k) {
        return refuse(tray, Refusal::ForeignByte);
    }
    let board = tray.board;
    if !traybands::is_empty(board, band) {
        return refuse(tray, Refusal::NotDue);
    }
    accept(with_board(tray, traybands::fill(board, band, bytes)))
}

// Keeps the bytes, which are whole rows, as the band.
pub fn deliver(tray: Tray, band: usize, bytes: &[u8]) -> CallResult
    ensures { call_outcome result ≡ deliver_of tray band bytes.now }
{
    let board = tray.board;
    if board.bands == 0 {
        return refuse(tray, Refusal::NoBoard);
    }
    if traybands::bands_of(board) <= band {
        return refuse(tray, Refusal::NoPlace);
    }
    if traybands::not_rows(board, bytes) {
        return refuse(tray, Refusal::NotRows);
    }
    deliver_rows(tray, band, bytes)
}

// Empties the band.
pub fn withdraw(tray: Tray, band: usize) -> CallResult
    ensures { call_outcome result ≡ withdraw_of tray band }
{
    let board = tray.board;
    if board.bands == 0 {
        return refuse(tray, Refusal::NoBoard);
    }
    if traybands::bands_of(board) <= band {
        return refuse(tray, Refusal::NoPlace);
    }
    if traybands::is_empty(board, band) {
        return refuse(tray, Refusal::EmptyPlace);
    }
    accept(with_board(tray, traybands::clear(board, band)))
}

// The verdict: waiting with the number of empty bands; or yes or no.
pub fn ask_verdict(tray: Tray) -> TrayVerdict
    ensures { verdict_means result ≡ verdict_of tray }
{
    let board = tray.board;
    if board.bands == 0 {
        return TrayVerdict::Refused(Refusal::NoBoard);
    }
    let empty = traybands::empty_bands(board);
    if empty != 0 {
        return TrayVerdict::Waiting(empty);
    }
    let row = tray.row;
    let column = tray.column;
    if trayverdict::says_yes(row, column, board) {
        TrayVerdict::Yes
    } else {
        TrayVerdict::No
    }
}
