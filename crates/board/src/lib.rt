// The board: what stands at each place. Any value of any field is taken: a number of places above
// 64 counts as 64.
#![tactic(auto)]

ghost use Rattle.std.specs.Prelude.{◌≡◌, ◌+◌, ◌≤◌, ◌<◌, min, cond, eqb, ltb, get_or, set};
ghost use Rattle.limits.specs.Limits.{most_places};
ghost use Rattle.base.specs.Totals.{total};
ghost use Rattle.board.specs.Boards.{empty_board, row_set, cleared_at};

// For each of up to 64 places whether it is filled (0 for empty), the count and the length of its
// chunk, one more than the last revision accepted there, and 32 end sets, one for each state. In a
// new board every cell is 0.
#[repr(C)]
#[derive(Clone, Copy)]
pub struct Board {
    pub places: u8,
    pub filled: [u8; limits::PLACES],
    pub counts: [u32; limits::PLACES],
    pub lengths: [u32; limits::PLACES],
    pub revisions: [u64; limits::PLACES],
    pub ends: [u32; limits::ENDS],
}

// The number of places.
pub fn places_of(places: u8) -> usize
    ensures { result ≡ min places most_places }
{
    places.min(limits::MOST_PLACES) as usize
}

// A board with all places empty.
pub fn empty_board(places: u8) -> Board
    ensures { result ≡ empty_board places }
{
    let filled = [0u8; limits::PLACES];
    let counts = [0u32; limits::PLACES];
    let lengths = [0u32; limits::PLACES];
    let revisions = [0u64; limits::PLACES];
    let ends = [0u32; limits::ENDS];
    Board {
        places,
        filled,
        counts,
        lengths,
        revisions,
        ends,
    }
}

// The place holds the end sets of the row.
pub fn set_row(ends: &mut [u32; limits::ENDS], place: usize, row: &[u32; limits::STATES])
    requires { place < most_places }
    ensures { ends.new ≡ row_set ends.old place (λ q. get_or row.now q 0) }
{
    for (q, mask) in row.iter().enumerate() {
        ends[place * limits::STATES + q] = *mask;
    }
}

// The mark of the place, its count or its length is set.
pub fn set_number<T: Copy>(numbers: &mut [T; limits::PLACES], place: usize, number: T)
    requires { place < most_places }
    ensures { numbers.new ≡ set numbers.old place number }
{
    numbers[place] = number;
}

// The last revision accepted at the place is set.
pub fn set_revision(revisions: &mut [u64; limits::PLACES], place: usize, revision: u32)
    requires { place < most_places }
    ensures { revisions.new ≡ set revisions.old place (revision + 1) }
{
    revisions[place] = (revision as u64) + 1;
}

// The place is empty, its end sets empty, its count and its length 0; its revision stays.
pub fn clear(board: Board, place: usize) -> Board
    requires { place < most_places }
    ensures { result ≡ cleared_at board place }
{
    let mut cleared = board;
    cleared.filled[place] = 0;
    cleared.counts[place] = 0;
    cleared.lengths[place] = 0;
    let row = [0u32; limits::STATES];
    set_row(&mut cleared.ends, place, &row);
    cleared
}

// Whether the place has no chunk.
pub fn is_empty(filled: &[u8; limits::PLACES], place: usize) -> bool
    requires { place < most_places }
    ensures { result ≡ eqb (get_or filled.now place 0) 0 }
{
    filled[place] == 0
}

// Whether the revision is not greater than the last one accepted at the place, where the board keeps
// one more than that.
pub fn comes_late(revisions: &[u64; limits::PLACES], place: usize, revision: u32) -> bool
    requires { place < most_places }
    ensures { result ≡ ltb revision (get_or revisions.now place 0) }
{
    (revision as u64) < revisions[place]
}

// How many of the first n marks say empty, of a board's places or of a tray's bands.
pub fn count_empty<const N: usize>(filled: &[u8; N], n: usize) -> u8
    requires { (n ≤ N) × (N < 256) }
    ensures { result ≡ total (λ p. cond (eqb (get_or filled.now p 0) 0) 1 0) n }
{
    let mut empty: u8 = 0;
    for p in 0..n {
        if filled[p] == 0 {
            empty += 1;
        }
    }
    empty
}

// How many places are empty.
pub fn empty_places(filled: &[u8; limits::PLACES], places: u8) -> u8
    ensures { result ≡ total (λ p. cond (eqb (get_or filled.now p 0) 0) 1 0) (min places most_places) }
{
    count_empty(filled, places_of(places))
}

// A number of a place, in 64 bits.
fn wide(number: u32) -> u64
    ensures { (result ≡ number) × (result < 4294967296) }
{
    number as u64
}

// The sum of the numbers of the first n places; in 64 bits none are too large.
fn sum_up(numbers: &[u32; limits::PLACES], n: usize) -> u64
    requires { n ≤ most_places }
    ensures { result ≡ total (λ p. get_or numbers.now p 0) n }
{
    let mut sum: u64 = 0;
    for p in 0..n {
        sum += wide(numbers[p]);
    }
    sum
}

// The sum of a number of each place, its count or its length, over all places.
pub fn summed(numbers: &[u32; limits::PLACES], places: u8) -> u64
    ensures { result ≡ total (λ p. get_or numbers.now p 0) (min places most_places) }
{
    sum_up(numbers, places_of(places))
}
