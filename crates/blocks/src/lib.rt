// Up to 32 runs over a text: block by block, in lanes, so that runs which meet are walked once.
#![tactic(auto)]

ghost use Rattle.std.specs.Prelude.{◌≡◌, ℕ, ◌<◌, ◌≤◌, max, length, get_or, replicate};
ghost use Rattle.limits.specs.Limits.{most_states, longest_chunk};
ghost use Rattle.lanes.specs.mirror.Offsets.{empty_row, offsets_of, row_end, row_count, rows_end, rows_count, rows_looked, RowTable, Rows};
ghost use Rattle.blocks.specs.mirror.Blocks.{walked_of, then_of, lane_room, pick_of, InUse, Shared, Small};

// Where 32 runs stand, as row offsets, what each of them has counted, and for how many bytes any of
// them looked a successor up.
#[derive(Clone, Copy)]
pub struct Walked {
    pub rows: [usize; limits::STATES],
    pub counts: [usize; limits::STATES],
    pub looked: usize,
}

// The most lanes: eight that stay empty, the first of them for all runs that have died, and one for
// each run.
const ROOM: usize = lanes::LANES + limits::STATES;

// The bytes of the first block. Each next one is as long as all before it, up to the longest: runs
// meet soon where blocks are short, and long ones leave the least to do between them.
const FIRST: usize = 64;

// The bytes of the longest block.
const LONGEST: usize = 512;

// The row offset of each lane, the lane of each run, and how many lanes are in use.
#[derive(Clone, Copy)]
struct Sharing {
    lane: [usize; ROOM],
    of: [usize; limits::STATES],
    used: usize,
}

// The lane that a hint names, if it is in use and has the row offset; else the next to be used.
fn hinted(lane: &[usize; ROOM], used: usize, hint: usize, row: usize) -> usize
    requires { used ≤ lane_room }
    ensures { (result ≤ used) × (result < used → get_or lane.now result 0 ≡ row) }
{
    if hint < used {
        if lane[hint] == row {
            return hint;
        }
    }
    used
}

fn small(x: u8) -> usize {
    x as usize
}

// A lane for each set in which there are runs. A set's hint says in which lane it may be; each is
// tested, so none needs to be right.
fn share(rows: [usize; limits::STATES]) -> Sharing
    requires { Rows rows }
    ensures { Shared rows result.lane result.of result.used }
{
    let mut lane = [lanes::EMPTY_ROW; ROOM];
    let mut of = [0usize; limits::STATES];
    let mut hints = [0u8; limits::CLASSES];
    let mut used = lanes::LANES;
    for j in 0..limits::STATES {
        let row = rows[j];
        let set = row / limits::SYMBOLS;
        let hint = small(hints[set]);
        let k = hinted(&lane, used, hint, row);
        if k == used {
            lane[used] = row;
            hints[set] = used as u8;
            used += 1;
        }
        of[j] = k;
    }
    Sharing { lane, of, used }
}

// The lanes in use over the bytes, eight at a time, where a range would go by ones; answers for how
// many bytes a successor is looked up.
fn walk_lanes(t: &[u16], part: &[u8], lane: &mut [usize], used: usize) -> usize
    requires { RowTable t.now × InUse lane.old used }
    ensures value { result ≡ rows_looked t.now part.now lane.old lane_room }
    ensures lane_after { lane.new ≡ rows_end t.now part.now lane.old lane_room }
{
    let mut looked: usize = 0;
    let mut from: usize = 0;
    while from < used {
        let end = from + lanes::LANES;
        let n = lanes::walk_eight(t, part, &mut lane[from..end]);
        looked = looked.max(n);
        from = end;
    }
    looked
}

// What a run counts that dies within the bytes: its steps until then.
fn count_of(t: &[u16], part: &[u8], from: usize) -> usize
    requires { RowTable t.now × (from ≤ empty_row) }
    ensures { result ≡ row_count t.now part.now from }
{
    let mut row = from;
    for i in 0..part.len() {
        let symbol = (part[i] % limits::MOST_SYMBOLS) as usize;
        row = lanes::offset(t[symbol + row]);
        if row >= lanes::EMPTY_ROW {
            return i;
        }
    }
    part.len()
}

// What a run counts over the bytes that lead it to the row offset `end`: each of them where it
// lives, nothing where it was empty before, and else its steps until it died.
fn spent(t: &[u16], part: &[u8], from: usize, end: usize) -> usize
    requires { RowTable t.now × (from ≤ empty_row) × (end ≡ row_end t.now part.now from) }
    ensures { result ≡ row_count t.now part.now from }
{
    if end < lanes::EMPTY_ROW {
        return part.len();
    }
    if from < lanes::EMPTY_ROW {
        return count_of(t, part, from);
    }
    0
}

// What each lane counts over the bytes that lead it from `from` to `end`.
fn tally(
    t: &[u16],
    part: &[u8],
    from: &[usize; ROOM],
    end: &[usize; ROOM],
    used: usize,
) -> [usize; ROOM]
    requires { RowTable t.now × InUse from.now used × (end.now ≡ rows_end t.now part.now from.now lane_room) }
    ensures { result ≡ rows_count t.now part.now from.now lane_room }
{
    let mut counts = [0usize; ROOM];
    for k in 0..used {
        counts[k] = spent(t, part, from[k], end[k]);
    }
    counts
}

// For each run what the list has for its lane.
fn pick(of: &[usize; limits::STATES], list: &[usize; ROOM]) -> [usize; limits::STATES]
    requires { (j : ℕ) → j < most_states → get_or of.now j 0 < lane_room }
    ensures { result ≡ pick_of of.now list.now }
{
    let mut out = [0usize; limits::STATES];
    for j in 0..limits::STATES {
        let k = of[j];
        out[j] = list[k];
    }
    out
}

// All runs over one block.
fn walk_block(t: &[u16], part: &[u8], rows: [usize; limits::STATES]) -> Walked
    requires { RowTable t.now × Rows rows }
    ensures { result ≡ walked_of t.now part.now rows }
{
    let sharing = share(rows);
    let from = sharing.lane;
    let of = sharing.of;
    let used = sharing.used;
    let mut lane = from;
    let looked = walk_lanes(t, part, &mut lane, used);
    let spent = tally(t, part, &from, &lane, used);
    let ends = pick(&of, &lane);
    let counts = pick(&of, &spent);
    Walked {
        rows: ends,
        counts,
        looked,
    }
}

// Two parts of a text, one after the other.
fn then(x: Walked, y: Walked) -> Walked
    requires { Small x × Small y }
    ensures { result ≡ then_of x y }
{
    let rows = y.rows;
    let first = x.counts;
    let second = y.counts;
    let mut counts = [0usize; limits::STATES];
    for j in 0..limits::STATES {
        counts[j] = first[j] + second[j];
    }
    Walked {
        rows,
        counts,
        looked: x.looked + y.looked,
    }
}

// Where the block from byte i on ends, in a text of n bytes. Any choice within the contract is
// right.
fn block_end(i: usize, n: usize) -> usize
    requires { i < n }
    ensures { (i < result) × (result ≤ n) }
{
    if i < FIRST {
        return clipped(i, FIRST, n);
    }
    if i < LONGEST {
        return clipped(i, i, n);
    }
    clipped(i, LONGEST, n)
}

// The end of a block of d bytes, or the text's where that comes first.
fn clipped(i: usize, d: usize, n: usize) -> usize
    requires { (i < n) × (0 < d) }
    ensures { (i < result) × (result ≤ n) }
{
    i + d.min(n - i)
}

// The runs before the first byte.
fn unwalked(rows: [usize; limits::STATES]) -> Walked
    ensures { result ≡ record { rows = rows; counts = replicate most_states 0; looked = 0 } }
{
    Walked {
        rows,
        counts: [0usize; limits::STATES],
        looked: 0,
    }
}

// The runs over the text. Once a block looks nothing up, every run has died.
fn walk_blocks(t: &[u16], rows: [usize; limits::STATES], text: &[u8]) -> Walked
    requires { RowTable t.now × Rows rows × (length text.now ≤ longest_chunk) }
    ensures { result ≡ walked_of t.now text.now rows }
{
    let mut walked = unwalked(rows);
    let mut i: usize = 0;
    while i < text.len() {
        let end = block_end(i, text.len());
        let from = walked.rows;
        let block = walk_block(t, &text[i..end], from);
        walked = then(walked, block);
        i = end;
        if block.looked == 0 {
            i = text.len();
        }
    }
    walked
}

// The runs over the text, by a next-set table. For an empty text no table of row offsets is made.
pub fn walk_text(next: &[u16; limits::CELLS], rows: [usize; limits::STATES], text: &[u8]) -> Walked
    requires { Rows rows × (length text.now ≤ longest_chunk) }
    ensures { result ≡ walked_of (offsets_of next.now) text.now rows }
{
    if text.len() == 0 {
        return unwalked(rows);
    }
    let mut t = [lanes::EMPTY_CELL; lanes::OFFSETS];
    lanes::fill_offsets(next, &mut t);
    walk_blocks(&t, rows, text)
}
