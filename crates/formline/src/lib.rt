// A failure form on a line: `SETS SYMBOLS FAILURE MASKS CELLS`.
#![tactic(auto)]

ghost use Rattle.std.specs.Prelude.{◌≡◌};
ghost use Rattle.formline.specs.Lines.{cells_in, masks_in, failure_in, symbols_in, line_in, held_of, line_means};

use forms::Form;

// The greatest numbers of sets and of symbols that a form has as a value.
const SETS_FIELD: u64 = 65535;

const SYMBOLS_FIELD: u64 = 255;

// A line says a form whose number of sets or of symbols is too great for the value.
#[derive(Clone, Copy)]
pub struct TooGreat;

// The last field. Where it is malformed the line is, whatever its numbers. The numbers are looked at
// first: with a test between reading the cells and making the form they are copied once more.
fn with_masks(
    sets: u64,
    symbols: u64,
    failure: [u16; limits::SETS],
    kept: [u16; limits::SETS],
    field: &[u8],
) -> Option<Result<Form, TooGreat>>
    ensures { line_means result ≡ held_of (cells_in sets symbols failure kept field.now) }
{
    if SETS_FIELD < sets || SYMBOLS_FIELD < symbols {
        wordfields::read_cells(field)?;
        return Some(Err(TooGreat));
    }
    let cells = wordfields::read_cells(field)?;
    Some(Ok(Form {
        sets: sets as u16,
        symbols: symbols as u8,
        failure,
        kept,
        cells,
    }))
}

// What follows the failure sets.
fn with_failure(
    sets: u64,
    symbols: u64,
    failure: [u16; limits::SETS],
    rest: &[u8],
) -> Option<Result<Form, TooGreat>>
    ensures { line_means result ≡ held_of (masks_in sets symbols failure rest.now) }
{
    let space = lines::find(rest, 0, b' ');
    if rest.len() <= space {
        return None;
    }
    let kept = wordfields::read_sets(&rest[..space])?;
    with_masks(sets, symbols, failure, kept, &rest[space + 1..])
}

// What follows the number of symbols.
fn with_symbols(sets: u64, symbols: u64, rest: &[u8]) -> Option<Result<Form, TooGreat>>
    ensures { line_means result ≡ held_of (failure_in sets symbols rest.now) }
{
    let space = lines::find(rest, 0, b' ');
    if rest.len() <= space {
        return None;
    }
    let failure = wordfields::read_sets(&rest[..space])?;
    with_failure(sets, symbols, failure, &rest[space + 1..])
}

// What follows the number of sets.
fn with_sets(sets: u64, rest: &[u8]) -> Option<Result<Form, TooGreat>>
    ensures { line_means result ≡ held_of (symbols_in sets rest.now) }
{
    let space = lines::find(rest, 0, b' ');
    if rest.len() <= space {
        return None;
    }
    let symbols = fields::read_number(&rest[..space])?;
    with_symbols(sets, symbols, &rest[space + 1..])
}

// The form that a line says, or that one of its numbers is too great for the value; none where the
// line is malformed.
pub fn read_line(line: &[u8]) -> Option<Result<Form, TooGreat>>
    ensures { line_means result ≡ held_of (line_in line.now) }
{
    let space = lines::find(line, 0, b' ');
    if line.len() <= space {
        return None;
    }
    let sets = fields::read_number(&line[..space])?;
    with_sets(sets, &line[space + 1..])
}
