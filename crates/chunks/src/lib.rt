// Runs a chunk over the next-set table of a built rule.
#![tactic(auto)]

ghost use Rattle.std.specs.Prelude.{◌≡◌, ℕ, ◌/◌, ◌≤◌, ◌<◌, min, length, get_or, replicate};
ghost use Rattle.limits.specs.Limits.{most_states, most_symbols, longest_chunk};
ghost use Rattle.base.specs.Totals.{total};
ghost use Rattle.masks.specs.Masks.{single};
ghost use Rattle.delegates.specs.Alike.{delegate_in, of_delegate, start_set};
ghost use Rattle.chunks.specs.Chunks.{foreign};
ghost use Rattle.lanes.specs.mirror.Offsets.{empty_row, row_of, Rows};
ghost use Rattle.chunks.specs.mirror.Walks.{mask_of, runs_of, start_rows, end_masks, delegate_mask, run_mask};

use delegates::DelegateAnswer;
use masks::StateNumber;
use subsets::SetNumber;

// The end set of each state, empty where it was not run, the sum of what the runs count, how many
// bytes of text the chunk has, and for how many of them any run looked a successor up.
#[derive(Clone, Copy)]
pub struct Runs {
    pub ends: [u32; limits::STATES],
    pub count: u32,
    pub bytes: u32,
    pub looked: u32,
}

// Whether some byte is no symbol below k (13).
pub fn has_foreign(chunk: &[u8], k: u8) -> bool
    ensures { result ≡ foreign chunk.now k }
{
    let mut found = false;
    for byte in chunk {
        if k <= *byte {
            found = true;
        }
    }
    found
}

// The starts, as a set: the states that are their own delegate.
pub fn start_mask(delegates: [u8; limits::STATES], n: u8) -> u32
    ensures { result ≡ start_set delegates (min n most_states) }
{
    let most = n.min(limits::MOST_STATES);
    let mut starts: u32 = 0;
    for q in 0..most {
        let i = q as usize;
        if delegates[i] == q {
            starts = masks::union(starts, masks::singleton(StateNumber(q)));
        }
    }
    starts
}

// The delegate of state q, as a set, which is empty where it has none.
fn delegate_single(delegates: &[u8; limits::STATES], q: StateNumber) -> u32
    requires { q.0 < most_states }
    ensures { result ≡ of_delegate single (delegate_in delegates.now q.0) }
{
    let DelegateAnswer::State(delegate) = delegates::delegate_at(delegates, q) else {
        return 0;
    };
    masks::singleton(delegate)
}

// The delegates of the set's members; a member without one is passed over.
pub fn delegate_mask(delegates: [u8; limits::STATES], n: u8, set: u32) -> u32
    ensures { result ≡ delegate_mask delegates n set }
{
    let most = n.min(limits::MOST_STATES);
    let mut out: u32 = 0;
    for q in 0..most {
        if masks::member(set, StateNumber(q)) {
            out = masks::union(out, delegate_single(&delegates, StateNumber(q)));
        }
    }
    out
}

// The states that a chunk at the place is run from: the delegates of initial states at place 0, all
// starts at any other.
pub fn run_mask(delegates: [u8; limits::STATES], n: u8, initials: u32, place: usize) -> u32
    ensures { result ≡ run_mask delegates n initials place }
{
    if place == 0 {
        delegate_mask(delegates, n, initials)
    } else {
        start_mask(delegates, n)
    }
}

// The mask of the set, which is empty from 512 on.
pub fn mask_of(sets: &[u32; limits::SETS], set: SetNumber) -> u32
    ensures { result ≡ mask_of sets.now set.0 }
{
    let i = set.0 as usize;
    if i < limits::SETS { sets[i] } else { 0 }
}

// The row offset of the set.
fn row_of(set: SetNumber) -> usize
    ensures { result ≡ row_of set.0 }
{
    lanes::row_of(set.0) as usize
}

// The set that a row offset stands for.
fn set_of(row: usize) -> SetNumber
    requires { row ≤ empty_row }
    ensures { result.0 ≡ row / most_symbols }
{
    SetNumber((row / limits::SYMBOLS) as u16)
}

// Where each run begins: at the set {q} of each state q of the mask; the others are empty.
fn start_rows(singles: &[u16; limits::STATES], mask: u32) -> [usize; limits::STATES]
    ensures { result ≡ start_rows singles.now mask }
{
    let mut rows = [lanes::EMPTY_ROW; limits::STATES];
    for (q, single) in singles.iter().enumerate() {
        if masks::member(mask, StateNumber(q as u8)) {
            rows[q] = row_of(SetNumber(*single));
        }
    }
    rows
}

// The masks of the sets where the runs end.
fn end_masks(sets: &[u32; limits::SETS], rows: [usize; limits::STATES]) -> [u32; limits::STATES]
    requires { Rows rows }
    ensures { result ≡ end_masks sets.now rows }
{
    let mut ends = [0u32; limits::STATES];
    for (q, row) in rows.iter().enumerate() {
        ends[q] = mask_of(sets, set_of(*row));
    }
    ends
}

// The sum of what the runs count.
fn summed(counts: [usize; limits::STATES]) -> usize
    requires { (q : ℕ) → get_or counts q 0 ≤ longest_chunk }
    ensures { result ≡ total (λ q. get_or counts q 0) most_states }
{
    let mut count: usize = 0;
    for one in counts {
        count += one;
    }
    count
}

// No state is run: nothing is looked up.
fn run_none(bytes: usize) -> Runs
    requires { bytes ≤ longest_chunk }
    ensures { result ≡ record { ends = replicate most_states 0; count = 0; bytes = bytes; looked = 0 } }
{
    Runs {
        ends: [0u32; limits::STATES],
        count: 0,
        bytes: bytes as u32,
        looked: 0,
    }
}

// The chunk run from each state of the mask.
fn run_all<'a>(
    sets: &'a [u32; limits::SETS],
    next: &'a [u16; limits::CELLS],
    singles: &'a [u16; limits::STATES],
    mask: u32,
    chunk: &[u8],
) -> Runs
    requires { length chunk.now ≤ longest_chunk }
    ensures { result ≡ runs_of sets.now next.now singles.now mask chunk.now }
{
    let walked = blocks::walk_text(next, start_rows(singles, mask), chunk);
    let rows = walked.rows;
    let counts = walked.counts;
    Runs {
        ends: end_masks(sets, rows),
        count: summed(counts) as u32,
        bytes: chunk.len() as u32,
        looked: walked.looked as u32,
    }
}

// The chunk run from each state of the mask; where there is none, no table of row offsets is made.
// One lifetime for the three tables, so that they can be lent from within one value.
pub fn run_chunk<'a>(
    sets: &'a [u32; limits::SETS],
    next: &'a [u16; limits::CELLS],
    singles: &'a [u16; limits::STATES],
    mask: u32,
    chunk: &[u8],
) -> Runs
    requires { length chunk.now ≤ longest_chunk }
    ensures { result ≡ runs_of sets.now next.now singles.now mask chunk.now }
{
    if mask == 0 {
        return run_none(chunk.len());
    }
    run_all(sets, next, singles, mask, chunk)
}
