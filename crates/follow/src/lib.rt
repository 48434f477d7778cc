// Follows a trace that comes in order, chunk by chunk, for every checked rule and at any length: the
// caller hands the set of states on from chunk to chunk. The answer says too where the trace is lost,
// and what could have stood there.
#![tactic(auto)]

ghost use Rattle.std.specs.Prelude.{◌≡◌, ◌<◌, ◌≤◌, [], ◌∷◌, length};
ghost use Rattle.limits.specs.Limits.{longest_chunk};
ghost use Rattle.marks.specs.Marks.{text_of};
ghost use Rattle.chunks.specs.Chunks.{foreign};
ghost use Rattle.follow.specs.mirror.Cache.{cache_rows, Cached, Stepped};
ghost use Rattle.follow.specs.Following.{next_by, way_of, way_outcome, follow_outcome, follow_of, lent_of, follow_by_of, prepare_outcome, prepare_of};

use automaton::Rule;
use base::Refusal;

// The set of states after the chunk, and whether a final state is in it. The trace is lost after the
// least number of bytes of the chunk, idle marks counted, after which no final state can be reached,
// and not at all where one can. Of the set before the byte at which it is lost, or after the chunk
// where it is not: a mask of the symbols after which a final state can still be reached, and whether
// one is in it, so that the trace could have ended there.
#[derive(Clone, Copy)]
pub struct Followed {
    pub set: u32,
    pub ends: bool,
    pub lost: Option<u32>,
    pub expected: u16,
    pub complete: bool,
}

// A checked rule with the mask of its live states, to follow many chunks by.
#[repr(C)]
#[derive(Clone, Copy)]
pub struct Follower {
    pub rule: Rule,
    pub live: u32,
}

// Where a chunk is lost, the set before that byte, or after the chunk where it is not, and the set
// after the chunk.
#[derive(Clone, Copy)]
struct Way {
    lost: Option<u32>,
    before: u32,
    set: u32,
}

// A cache of successors has 61 rows of 16 cells. The sets of single states have a row each: the powers
// of 2 below 2^60 have different remainders by 61.
const ROWS: u32 = 61;

const CACHE: usize = 976;

// A set on the way, and the row of the cache in which its successors are looked for.
#[derive(Clone, Copy)]
struct Here {
    set: u32,
    row: u8,
}

// The symbols below k after which a state of the mask `live` is reached from the set. None leads
// anywhere that is not below 16.
fn next_symbols(targets: &[u32; limits::TARGETS], live: u32, k: u8, set: u32) -> u16
    ensures { result ≡ next_by targets.now live k set }
{
    let most = k.min(limits::MOST_SYMBOLS);
    let mut mask: u16 = 0;
    for s in 0..most {
        let reached = automaton::successor(targets, set, s);
        if masks::meets(reached, live) {
            mask = mask | masks::only_symbol(s as usize);
        }
    }
    mask
}

// Whether the byte is neither an idle mark nor a symbol below k. With one more the idle mark, which
// is the highest byte, wraps to 0.
fn is_stray(byte: u8, k: u8) -> bool
    ensures { result ≡ foreign (text_of (byte ∷ [])) k }
{
    k < std::num::wrapping_add_u8(byte, 1)
}

// Whether some byte is neither an idle mark nor a symbol below k (13).
fn has_stray(chunk: &[u8], k: u8) -> bool
    ensures { result ≡ foreign (text_of chunk.now) k }
{
    let mut found = false;
    for byte in chunk {
        if is_stray(*byte, k) {
            found = true;
        }
    }
    found
}

// The row of the cache in which a set's successors are looked for.
fn row_of(set: u32) -> u8
    ensures { result < cache_rows }
{
    (set % ROWS) as u8
}

// The set after one byte, which may be an idle mark. In cell c of the cache: by symbol c % 16 the set
// from[c] leads to the set to[c], whose row is rows[c]. Where the cell is another set's it is written.
fn step(
    targets: &[u32; limits::TARGETS],
    from: &mut [u32; CACHE],
    to: &mut [u32; CACHE],
    rows: &mut [u8; CACHE],
    here: Here,
    byte: u8,
) -> Here
    requires { Cached targets.now from.old to.old rows.old × (here.row < cache_rows) }
    ensures { Stepped targets.now here.set byte result from.new to.new rows.new }
{
    if limits::MOST_SYMBOLS <= byte {
        if byte == marks::IDLE {
            return here;
        }
        return Here { set: 0, row: 0 };
    }
    let set = here.set;
    let cell = here.row as usize * limits::SYMBOLS + byte as usize;
    if from[cell] == set {
        return Here {
            set: to[cell],
            row: rows[cell],
        };
    }
    let next = automaton::successor(targets, set, byte);
    let row = row_of(next);
    from[cell] = set;
    to[cell] = next;
    rows[cell] = row;
    Here { set: next, row }
}

// Walks the chunk until no state of the mask `live` is left, and from there to its end, or until
// there is no state at all.
fn walk(targets: &[u32; limits::TARGETS], live: u32, set: u32, chunk: &[u8]) -> Way
    requires { length chunk.now ≤ longest_chunk }
    ensures { way_outcome result ≡ way_of targets.now live set chunk.now }
{
    let mut from = [0u32; CACHE];
    let mut to = [0u32; CACHE];
    let mut rows = [0u8; CACHE];
    let mut before = set;
    let mut here = Here {
        set,
        row: row_of(set),
    };
    let mut i: usize = 0;
    while masks::meets(here.set, live) {
        if chunk.len() <= i {
            return Way {
                lost: None,
                before: here.set,
                set: here.set,
            };
        }
        before = here.set;
        here = step(targets, &mut from, &mut to, &mut rows, here, chunk[i]);
        i += 1;
    }
    let at = i as u32;
    for j in i..chunk.len() {
        if here.set == 0 {
            return Way {
                lost: Some(at),
                before,
                set: 0,
            };
        }
        here = step(targets, &mut from, &mut to, &mut rows, here, chunk[j]);
    }
    Way {
        lost: Some(at),
        before,
        set: here.set,
    }
}

// Follows a chunk by a rule's targets, final states, live states and number of symbols, whatever
// these are: refused with 12 or 13, or the answer.
fn follow_lent(
    targets: &[u32; limits::TARGETS],
    finals: u32,
    live: u32,
    k: u8,
    set: u32,
    chunk: &[u8],
) -> Result<Followed, Refusal>
    ensures { follow_outcome result ≡ lent_of targets.now finals live k set chunk.now }
{
    if limits::CHUNK < chunk.len() {
        return Err(Refusal::LongChunk);
    }
    if has_stray(chunk, k) {
        return Err(Refusal::ForeignByte);
    }
    let way = walk(targets, live, set, chunk);
    Ok(Followed {
        set: way.set,
        ends: masks::meets(way.set, finals),
        lost: way.lost,
        expected: next_symbols(targets, live, k, way.before),
        complete: masks::meets(way.before, finals),
    })
}

// Follows a chunk, which may be any bytes, from a set of states of a rule, which may be any value.
pub fn follow(rule: Rule, set: u32, chunk: &[u8]) -> Result<Followed, Refusal>
    ensures { follow_outcome result ≡ follow_of rule set chunk.now }
{
    rulecheck::check_rule(rule)?;
    let live = live::live_states(&rule.targets, rule.finals);
    follow_lent(&rule.targets, rule.finals, live, rule.k, set, chunk)
}

// Checks a rule, which may be any value, to follow many chunks by it.
pub fn prepare(rule: Rule) -> Result<Follower, Refusal>
    ensures { prepare_outcome result ≡ prepare_of rule }
{
    rulecheck::check_rule(rule)?;
    let live = live::live_states(&rule.targets, rule.finals);
    Ok(Follower { rule, live })
}

// Follows a chunk by what `prepare` answered, or by any other numbers.
pub fn follow_by(follower: Follower, set: u32, chunk: &[u8]) -> Result<Followed, Refusal>
    ensures { follow_outcome result ≡ follow_by_of follower set chunk.now }
{
    let rule = follower.rule;
    follow_lent(
        &rule.targets,
        rule.finals,
        follower.live,
        rule.k,
        set,
        chunk,
    )
}
