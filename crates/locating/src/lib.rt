// After how many bytes of a chunk a trace is lost, where the chunk is handed over once more. Nothing
// is changed.
#![tactic(auto)]

ghost use Rattle.std.specs.Prelude.{◌≡◌, ◌*◌, ◌≤◌, ◌<◌, min, max, eqb, length, get_or};
ghost use Rattle.limits.specs.Limits.{most_states, most_symbols, empty_set, table_cells, most_places, longest_chunk};
ghost use Rattle.base.specs.Conditions.{any_below};
ghost use Rattle.marks.specs.Marks.{text_of};
ghost use Rattle.chunks.specs.mirror.Walks.{mask_of, step_of, walk_end, walk_looked, runs_of};
ghost use Rattle.locating.specs.Positions.{position_of};
ghost use Rattle.locating.specs.mirror.Pruning.{live_set, kept_cell, pruned};
ghost use Rattle.locating.specs.Locating.{found_means, located_means, some_left, found_by, text_spot, in_chunk, spot_of};

use base::Refusal;
use calls::Judge;
use masks::StateNumber;
use subsets::SetNumber;

// So many steps of runs take less time than the pruned table of 512 sets.
const FEW_STEPS: usize = 4096;

// The states that have a delegate, as a set.
fn live_mask(delegates: [u8; limits::STATES], n: u8) -> u32
    ensures { result ≡ live_set delegates (min n most_states) }
{
    let most = n.min(limits::MOST_STATES);
    let mut live: u32 = 0;
    for q in 0..most {
        let i = q as usize;
        if delegates[i] < limits::NO_DELEGATE {
            live = masks::union(live, masks::singleton(StateNumber(q)));
        }
    }
    live
}

// The set that a cell names, where it has a live state; else the empty set.
fn kept_cell(sets: &[u32; limits::SETS], live: u32, cell: u16) -> u16
    ensures { result ≡ kept_cell sets.now live cell }
{
    if masks::meets(chunks::mask_of(sets, SetNumber(cell)), live) {
        cell
    } else {
        limits::EMPTY
    }
}

// The cells of the table that the rows of so many sets have.
fn cells_of(count: u16) -> usize
    ensures { result ≡ min (count * most_symbols) table_cells }
{
    (count as usize * limits::SYMBOLS).min(limits::CELLS)
}

// The next-set table in which a set without a live state is the empty set, so that a run dies where
// it is lost.
fn prune<'a>(
    sets: &'a [u32; limits::SETS],
    next: &'a [u16; limits::CELLS],
    live: u32,
    count: u16,
) -> [u16; limits::CELLS]
    ensures { result ≡ pruned sets.now next.now live count }
{
    let end = cells_of(count);
    let mut out = [limits::EMPTY; limits::CELLS];
    for c in 0..end {
        out[c] = kept_cell(sets, live, next[c]);
    }
    out
}

// Whether some end set is not empty.
fn some_left(ends: [u32; limits::STATES]) -> bool
    ensures { result ≡ some_left ends }
{
    for end in ends {
        if 0 < end {
            return true;
        }
    }
    false
}

// The set to which the byte leads, by the pruned table, of which nothing is made.
fn kept_step<'a>(
    sets: &'a [u32; limits::SETS],
    next: &'a [u16; limits::CELLS],
    live: u32,
    count: u16,
    set: SetNumber,
    byte: u8,
) -> SetNumber
    requires { set.0 < empty_set }
    ensures { result.0 ≡ step_of (pruned sets.now next.now live count) set.0 byte }
{
    if count <= set.0 {
        return SetNumber(limits::EMPTY);
    }
    let symbol = (byte % limits::MOST_SYMBOLS) as usize;
    let cell = (set.0 as usize) * limits::SYMBOLS + symbol;
    SetNumber(kept_cell(sets, live, next[cell]))
}

// The mask of the set where a run ends, and for how many bytes it looks a successor up.
#[derive(Clone, Copy)]
struct Run {
    mask: u32,
    looked: u32,
}

// One run over the text by the pruned table, of which nothing is made.
fn run_kept<'a>(
    sets: &'a [u32; limits::SETS],
    next: &'a [u16; limits::CELLS],
    live: u32,
    count: u16,
    from: SetNumber,
    text: &[u8],
) -> Run
    requires { length text.now ≤ longest_chunk }
    ensures mask_value { result.mask ≡ mask_of sets.now (walk_end (pruned sets.now next.now live count) from.0 text.now) }
    ensures looked_value { result.looked ≡ walk_looked (pruned sets.now next.now live count) from.0 text.now }
{
    let mut set = from.0;
    if limits::EMPTY <= set {
        return Run { mask: 0, looked: 0 };
    }
    for (i, byte) in text.iter().enumerate() {
        let after = kept_step(sets, next, live, count, SetNumber(set), *byte);
        set = after.0;
        if limits::EMPTY <= set {
            return Run {
                mask: 0,
                looked: (i + 1) as u32,
            };
        }
    }
    Run {
        mask: chunks::mask_of(sets, SetNumber(set)),
        looked: text.len() as u32,
    }
}

// What the runs over the text say, one after the other: after how many bytes of it the last of them
// dies, if all do.
fn find_by_run<'a>(
    sets: &'a [u32; limits::SETS],
    next: &'a [u16; limits::CELLS],
    singles: &'a [u16; limits::STATES],
    starts: u32,
    live: u32,
    count: u16,
    text: &[u8],
) -> Option<u32>
    requires { length text.now ≤ longest_chunk }
    ensures { found_means result ≡ found_by (runs_of sets.now (pruned sets.now next.now live count) singles.now starts text.now) }
{
    let mut looked: u32 = 0;
    for (q, single) in singles.iter().enumerate() {
        if masks::member(starts, StateNumber(q as u8)) {
            let run = run_kept(sets, next, live, count, SetNumber(*single), text);
            if 0 < run.mask {
                return None;
            }
            looked = looked.max(run.looked);
        }
    }
    Some(looked)
}

// The same of all runs together, by the pruned table.
fn find_by_table<'a>(
    sets: &'a [u32; limits::SETS],
    next: &'a [u16; limits::CELLS],
    singles: &'a [u16; limits::STATES],
    starts: u32,
    live: u32,
    count: u16,
    text: &[u8],
) -> Option<u32>
    requires { length text.now ≤ longest_chunk }
    ensures { found_means result ≡ found_by (runs_of sets.now (pruned sets.now next.now live count) singles.now starts text.now) }
{
    let cut = prune(sets, next, live, count);
    let runs = chunks::run_chunk(sets, &cut, singles, starts, text);
    let ends = runs.ends;
    if some_left(ends) {
        return None;
    }
    Some(runs.looked)
}

// How many states the set has.
fn size_of(set: u32) -> u32 {
    u32::count_ones(set)
}

// Up to how many bytes of text runs from these states have few steps. Any number is right.
fn few_bytes(starts: u32) -> usize {
    FEW_STEPS / (size_of(starts) as usize + 1)
}

// What the runs over the text say, in bytes of it, where each is below k and no place before is
// empty. Where the runs have few steps, no table is made: either way is right.
fn locate_text<'a>(
    sets: &'a [u32; limits::SETS],
    next: &'a [u16; limits::CELLS],
    singles: &'a [u16; limits::STATES],
    starts: u32,
    live: u32,
    count: u16,
    k: u8,
    gap: bool,
    text: &[u8],
) -> Result<Option<u32>, Refusal>
    requires { length text.now ≤ longest_chunk }
    ensures { located_means result ≡ text_spot sets.now (pruned sets.now next.now live count) singles.now starts k gap text.now }
{
    if chunks::has_foreign(text, k) {
        return Err(Refusal::ForeignByte);
    }
    if gap {
        return Err(Refusal::EmptyPlace);
    }
    if text.len() <= few_bytes(starts) {
        return Ok(find_by_run(sets, next, singles, starts, live, count, text));
    }
    Ok(find_by_table(sets, next, singles, starts, live, count, text))
}

// How many bytes of the chunk, idle marks counted, hold so many bytes of its text.
fn position(chunk: &[u8], bytes: u32) -> u32
    requires { length chunk.now ≤ longest_chunk }
    ensures { result ≡ position_of chunk.now bytes }
{
    let mut left = bytes;
    for (i, byte) in chunk.iter().enumerate() {
        if left == 0 {
            return i as u32;
        }
        if *byte != marks::IDLE {
            left -= 1;
        }
    }
    chunk.len() as u32
}

// What was found in the text, in bytes of the chunk.
fn in_chunk(found: Option<u32>, chunk: &[u8]) -> Option<u32>
    requires { length chunk.now ≤ longest_chunk }
    ensures { found_means result ≡ in_chunk chunk.now (found_means found) }
{
    let bytes = found?;
    Some(position(chunk, bytes))
}

// A chunk with idle marks: its text is packed once.
fn locate_marked<'a>(
    sets: &'a [u32; limits::SETS],
    next: &'a [u16; limits::CELLS],
    singles: &'a [u16; limits::STATES],
    starts: u32,
    live: u32,
    count: u16,
    k: u8,
    gap: bool,
    chunk: &[u8],
) -> Result<Option<u32>, Refusal>
    requires { length chunk.now ≤ longest_chunk }
    ensures { located_means result ≡ in_chunk chunk.now (text_spot sets.now (pruned sets.now next.now live count) singles.now starts k gap (text_of chunk.now)) }
{
    let mut buffer = [0u8; limits::CHUNK];
    let len = marks::pack(chunk, &mut buffer);
    let found = locate_text(
        sets,
        next,
        singles,
        starts,
        live,
        count,
        k,
        gap,
        &buffer[..len],
    )?;
    Ok(in_chunk(found, chunk))
}

// Any chunk: one without marks is its own text.
fn locate_chunk<'a>(
    sets: &'a [u32; limits::SETS],
    next: &'a [u16; limits::CELLS],
    singles: &'a [u16; limits::STATES],
    starts: u32,
    live: u32,
    count: u16,
    k: u8,
    gap: bool,
    chunk: &[u8],
) -> Result<Option<u32>, Refusal>
    requires { length chunk.now ≤ longest_chunk }
    ensures { located_means result ≡ in_chunk chunk.now (text_spot sets.now (pruned sets.now next.now live count) singles.now starts k gap (text_of chunk.now)) }
{
    if marks::has_marks(chunk) {
        return locate_marked(sets, next, singles, starts, live, count, k, gap, chunk);
    }
    locate_text(sets, next, singles, starts, live, count, k, gap, chunk)
}

// Whether one of the first places is empty.
fn has_gap(filled: &[u8; limits::PLACES], places: usize) -> bool
    requires { places ≤ most_places }
    ensures { result ≡ any_below (λ p. eqb (get_or filled.now p 0) 0) places }
{
    for p in 0..places {
        if filled[p] == 0 {
            return true;
        }
    }
    false
}

// After how many bytes of the chunk at the place the trace is lost: the least number of them, idle
// marks counted, after which nothing can follow, if there is one.
pub fn locate(judge: Judge, place: usize, chunk: &[u8]) -> Result<Option<u32>, Refusal>
    ensures { located_means result ≡ spot_of judge place chunk.now }
{
    if judge.board.places == 0 {
        return Err(Refusal::NoBoard);
    }
    if board::places_of(judge.board.places) <= place {
        return Err(Refusal::NoPlace);
    }
    if limits::CHUNK < chunk.len() {
        return Err(Refusal::LongChunk);
    }
    let gap = has_gap(&judge.board.filled, place);
    let delegates = judge.built.delegates;
    let n = judge.built.n;
    let from = joins::join_places(
        &judge.board.ends,
        &delegates,
        n,
        judge.built.initials,
        place,
    );
    let starts = chunks::delegate_mask(delegates, n, from);
    let live = live_mask(delegates, n);
    locate_chunk(
        &judge.built.sets,
        &judge.built.next,
        &judge.built.singles,
        starts,
        live,
        judge.built.setcount,
        judge.built.k,
        gap,
        chunk,
    )
}
