// A judge as bytes, and back: the whole of it in a fixed number of bytes, each number the lowest
// byte first, with a digest at the end. Any value of a judge is saved; any bytes may be handed in.
#![tactic(auto)]

ghost use Rattle.std.specs.Prelude.{◌≡◌, ℕ, ◌+◌, ◌*◌, ◌^◌, ◌<◌, ◌≤◌, length, map, take};
ghost use Rattle.std.proofs.Common.{lit≤};
ghost use Rattle.text.specs.Writing.{Wrote};
ghost use Rattle.saved_judge.specs.Little.{little_of, little_at, numbers_of, numbers_at};
ghost use Rattle.saved_judge.specs.Digest.{mixed, digest_step, digest_of};
ghost use Rattle.saved_judge.specs.Saved.{saved_size, bytes_in, head_fields, number_fields, table_fields, board_fields, saved_of, head_right, is_saved, built_at, board_at, restore_outcome, restore_of};
ghost use Rattle.saved_judge.specs.Claims.{FitsBuilt, FitsBoard, Fits};

use base::Refusal;
use board::Board;
use build::Built;
use calls::Judge;

// The bytes of a saved judge, and those that come before the digest.
pub const SAVED: usize = 27838;

const CONTENT: usize = SAVED - 8;

// The version of the format.
const VERSION: u64 = 1;

#[repr(C)]
#[derive(Clone, Copy)]
pub struct Saved {
    pub bytes: [u8; SAVED],
}

// A type of numbers, all of which are saved in the same number of bytes.
trait Number: Copy {
    // How many bytes.
    const WIDTH: usize;

    ghost WIDTH: { ℕ };

    ghost value: { Self → ℕ };

    // The number with 64 bits.
    fn wide(self) -> u64
        ensures { result ≡ value self };

    // The number of this type that so many bytes say.
    fn narrow(number: u64) -> Self
        requires { number < 256 ^ WIDTH }
        ensures { value result ≡ number };

    ghost at_most_eight: { WIDTH ≤ 8 };
}

impl Number for u8 {
    const WIDTH: usize = 1;

    ghost WIDTH = { 1 };

    ghost value = { λ x. x };

    ghost at_most_eight = { lit≤ tt };

    fn wide(self) -> u64 {
        self as u64
    }

    fn narrow(number: u64) -> u8 {
        number as u8
    }
}

impl Number for u16 {
    const WIDTH: usize = 2;

    ghost WIDTH = { 2 };

    ghost value = { λ x. x };

    ghost at_most_eight = { lit≤ tt };

    fn wide(self) -> u64 {
        self as u64
    }

    fn narrow(number: u64) -> u16 {
        number as u16
    }
}

impl Number for u32 {
    const WIDTH: usize = 4;

    ghost WIDTH = { 4 };

    ghost value = { λ x. x };

    ghost at_most_eight = { lit≤ tt };

    fn wide(self) -> u64 {
        self as u64
    }

    fn narrow(number: u64) -> u32 {
        number as u32
    }
}

impl Number for u64 {
    const WIDTH: usize = 8;

    ghost WIDTH = { 8 };

    ghost value = { λ x. x };

    ghost at_most_eight = { lit≤ tt };

    fn wide(self) -> u64 {
        self
    }

    fn narrow(number: u64) -> u64 {
        number
    }
}

// A number in so many bytes.
fn put_little(out: &mut [u8], start: usize, width: usize, number: u64) -> usize
    requires { start + width ≤ length out.old }
    ensures { Wrote out.old start (little_of width number) out.new result × (result ≡ start + width) }
{
    let mut at = start;
    let mut rest = number;
    for _ in 0..width {
        at = text::put_byte(out, at, (rest % 256) as u8);
        rest = rest / 256;
    }
    at
}

// The number that so many bytes say.
fn get_little(bytes: &[u8], at: usize, width: usize) -> u64
    requires { (width ≤ 8) × (at + width ≤ length bytes.now) }
    ensures { (result ≡ little_at width bytes.now at) × (result < 256 ^ width) }
{
    let mut number: u64 = 0;
    for i in (0..width).rev() {
        number = 256 * number + (bytes[at + i] as u64);
    }
    number
}

// Numbers one after the other, in the bytes of their type each.
fn put_cells<T: Number>(out: &mut [u8], start: usize, cells: &[T]) -> usize
    requires { start + T.WIDTH * length cells.now ≤ length out.old }
    ensures { Wrote out.old start (numbers_of T.WIDTH (map T.value cells.now)) out.new result
        × (result ≡ start + T.WIDTH * length cells.now) }
{
    let mut at = start;
    for &cell in cells {
        at = put_little(out, at, T::WIDTH, cell.wide());
    }
    at
}

// As many numbers as there are cells, from the bytes of their type each.
fn get_cells<T: Number>(bytes: &[u8], at: usize, cells: &mut [T])
    requires { at + T.WIDTH * length cells.old ≤ length bytes.now }
    ensures { map T.value cells.new ≡ numbers_at T.WIDTH (length cells.old) bytes.now at }
{
    for (i, cell) in cells.iter_mut().enumerate() {
        *cell = T::narrow(get_little(bytes, at + T::WIDTH * i, T::WIDTH));
    }
}

// Mark, version and length.
fn put_head(out: &mut [u8]) -> usize
    requires { saved_size ≤ length out.old }
    ensures { Wrote out.old 0 (bytes_in head_fields) out.new result × (result ≡ 8) }
{
    let a = put_little(out, 0, 1, 66);
    let b = put_little(out, a, 1, 66);
    let c = put_little(out, b, 1, 74);
    let d = put_little(out, c, 1, VERSION);
    put_little(out, d, 4, SAVED as u64)
}

// The numbers of a built rule that stand alone, in 13 bytes.
fn put_numbers(out: &mut [u8], start: usize, built: Built) -> usize
    requires { start + 13 ≤ length out.old }
    ensures { Wrote out.old start (bytes_in (number_fields built)) out.new result × (result ≡ start + 13) }
{
    let a = put_little(out, start, 1, built.n as u64);
    let b = put_little(out, a, 1, built.k as u64);
    let c = put_little(out, b, 1, built.startcount as u64);
    let d = put_little(out, c, 2, built.setcount as u64);
    let e = put_little(out, d, 4, built.initials as u64);
    put_little(out, e, 4, built.finals as u64)
}

// Its arrays, in 18,528 bytes.
fn put_tables(out: &mut [u8], start: usize, built: Built) -> usize
    requires { start + 18528 ≤ length out.old }
    ensures { Wrote out.old start (bytes_in (table_fields built)) out.new result × (result ≡ start + 18528) }
{
    let a = put_cells(out, start, &built.delegates);
    let b = put_cells(out, a, &built.singles);
    let c = put_cells(out, b, &built.sets);
    put_cells(out, c, &built.next)
}

// A board, in 9,281 bytes.
fn put_board(out: &mut [u8], start: usize, board: Board) -> usize
    requires { start + 9281 ≤ length out.old }
    ensures { Wrote out.old start (bytes_in (board_fields board)) out.new result × (result ≡ start + 9281) }
{
    let a = put_little(out, start, 1, board.places as u64);
    let b = put_cells(out, a, &board.filled);
    let c = put_cells(out, b, &board.counts);
    let d = put_cells(out, c, &board.lengths);
    let e = put_cells(out, d, &board.revisions);
    put_cells(out, e, &board.ends)
}

// The halves of a number mixed and exchanged.
fn mix(number: u64) -> u64
    ensures { result ≡ mixed number }
{
    let upper = number / 4294967296;
    let lower = number % 4294967296;
    (lower + upper * upper) % 4294967296 * 4294967296 + upper
}

// The digest with one byte more.
fn with_byte(digest: u64, byte: u8) -> u64
    ensures { result ≡ digest_step digest byte }
{
    let product = std::num::wrapping_add_u64(digest << 17, digest);
    mix(std::num::wrapping_add_u64(product, (byte as u64) + 1))
}

// The digest of the first bytes.
fn digest(bytes: &[u8], count: usize) -> u64
    requires { count ≤ length bytes.now }
    ensures { result ≡ digest_of (take count bytes.now) }
{
    let mut next: u64 = 0;
    for &byte in &bytes[..count] {
        next = with_byte(next, byte);
    }
    next
}

// Every number of a built rule is one that its type holds: this only says so, and is compiled to
// nothing.
fn of_type(built: Built) -> u8
    ensures { FitsBuilt built }
{
    built.n
}

// The same of a board.
fn of_type_board(board: Board) -> u8
    ensures { FitsBoard board }
{
    board.places
}

// The judge as bytes. Any value is taken: its numbers are those of the type.
pub fn save(judge: Judge) -> Saved
    ensures { Fits judge × (result.bytes ≡ saved_of judge) }
{
    let built = judge.built;
    let board = judge.board;
    of_type(built);
    of_type_board(board);
    let mut bytes = [0u8; SAVED];
    let a = put_head(&mut bytes);
    let b = put_numbers(&mut bytes, a, built);
    let c = put_tables(&mut bytes, b, built);
    let d = put_board(&mut bytes, c, board);
    let sum = digest(&bytes, d);
    put_little(&mut bytes, d, 8, sum);
    Saved { bytes }
}

// Whether mark, version and length are right.
fn head_right(bytes: &[u8]) -> bool
    requires { length bytes.now ≡ saved_size }
    ensures { result ≡ head_right bytes.now }
{
    if get_little(bytes, 0, 1) != 66 {
        return false;
    }
    if get_little(bytes, 1, 1) != 66 {
        return false;
    }
    if get_little(bytes, 2, 1) != 74 {
        return false;
    }
    if get_little(bytes, 3, 1) != VERSION {
        return false;
    }
    get_little(bytes, 4, 4) == SAVED as u64
}

// Whether the bytes are those of a saved judge.
fn is_saved(bytes: &[u8]) -> bool
    ensures { result ≡ is_saved bytes.now }
{
    if bytes.len() != SAVED {
        return false;
    }
    if head_right(bytes) {
        return get_little(bytes, CONTENT, 8) == digest(bytes, CONTENT);
    }
    false
}

// The built rule that stands in the bytes.
fn get_built(bytes: &[u8]) -> Built
    requires { length bytes.now ≡ saved_size }
    ensures { result ≡ built_at bytes.now }
{
    let mut delegates = [0u8; limits::STATES];
    let mut singles = [0u16; limits::STATES];
    let mut sets = [0u32; limits::SETS];
    let mut next = [0u16; limits::CELLS];
    get_cells(bytes, 21, &mut delegates);
    get_cells(bytes, 53, &mut singles);
    get_cells(bytes, 117, &mut sets);
    get_cells(bytes, 2165, &mut next);
    Built {
        n: get_little(bytes, 8, 1) as u8,
        k: get_little(bytes, 9, 1) as u8,
        startcount: get_little(bytes, 10, 1) as u8,
        setcount: get_little(bytes, 11, 2) as u16,
        initials: get_little(bytes, 13, 4) as u32,
        finals: get_little(bytes, 17, 4) as u32,
        delegates,
        singles,
        sets,
        next,
    }
}

// The board that stands in the bytes.
fn get_board(bytes: &[u8]) -> Board
    requires { length bytes.now ≡ saved_size }
    ensures { result ≡ board_at bytes.now }
{
    let mut filled = [0u8; limits::PLACES];
    let mut counts = [0u32; limits::PLACES];
    let mut lengths = [0u32; limits::PLACES];
    let mut revisions = [0u64; limits::PLACES];
    let mut ends = [0u32; limits::ENDS];
    get_cells(bytes, 18550, &mut filled);
    get_cells(bytes, 18614, &mut counts);
    get_cells(bytes, 18870, &mut lengths);
    get_cells(bytes, 19126, &mut revisions);
    get_cells(bytes, 19638, &mut ends);
    Board {
        places: get_little(bytes, 18549, 1) as u8,
        filled,
        counts,
        lengths,
        revisions,
        ends,
    }
}

// The judge that was saved as the bytes, which may be any: refused with 46 unless their number, the
// mark, the version, the length that they say and the digest are right.
pub fn restore(bytes: &[u8]) -> Result<Judge, Refusal>
    ensures { restore_outcome result ≡ restore_of bytes.now }
{
    if !is_saved(bytes) {
        return Err(Refusal::NotSaved);
    }
    let built = get_built(bytes);
    let board = get_board(bytes);
    Ok(Judge { built, board })
}
