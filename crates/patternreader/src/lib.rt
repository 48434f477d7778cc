// Reads a pattern byte by byte into the sets of its positions, and makes the rule of them: one pass
// with a stack of what stands before each open bracket.
#![tactic(auto)]

ghost use Rattle.std.specs.Prelude.{◌≡◌, cond, ◌&&◌, ◌||◌};
ghost use Rattle.patternreader.specs.Reader.{then_of, or_of, linked_of, no_part, empty_part};
ghost use Rattle.patternreader.specs.Reader.{commit_of, letter_of, bar_of, opened_of, closed_of};
ghost use Rattle.patternreader.specs.Reader.{starred_of, after_sign, after_bytes, beginning};
ghost use Rattle.patternreader.specs.Rules.{targets_of, rule_from, rule_read};

use automaton::Rule;
use masks::StateNumber;
use patternscan::Sign;

// Of a part of a pattern: whether the empty text is one of its texts, and the positions where a
// text can begin and end.
#[derive(Clone, Copy)]
pub struct Part {
    pub empty: bool,
    pub first: u32,
    pub last: u32,
}

// What stands before an open bracket: the alternatives so far, and the sequence so far of the next.
#[derive(Clone, Copy)]
pub struct Frame {
    pub alternatives: Part,
    pub sequence: Part,
}

// A pattern half read: how many brackets are open and how many letters were read; since the last
// open bracket the alternatives, the sequence and the item, which a star may still follow; the
// frames of the open brackets; for each position those that follow it; for each letter its
// positions.
#[derive(Clone, Copy)]
pub struct Reading {
    pub depth: u8,
    pub letters: u8,
    pub alternatives: Part,
    pub sequence: Part,
    pub item: Part,
    pub stack: [Frame; patterns::PATTERN],
    pub follow: [u32; limits::STATES],
    pub positions: [u32; limits::SYMBOLS],
}

fn kept(test: bool, mask: u32) -> u32
    ensures { result ≡ cond test mask 0 }
{
    if test { mask } else { 0 }
}

fn both(a: bool, b: bool) -> bool
    ensures { result ≡ (a && b) }
{
    if a { b } else { false }
}

fn one(a: bool, b: bool) -> bool
    ensures { result ≡ (a || b) }
{
    if a { true } else { b }
}

// One part and then the other.
fn then_part(a: Part, b: Part) -> Part
    ensures { result ≡ then_of a b }
{
    Part {
        empty: both(a.empty, b.empty),
        first: a.first | kept(a.empty, b.first),
        last: kept(b.empty, a.last) | b.last,
    }
}

// One part or the other.
fn or_part(a: Part, b: Part) -> Part
    ensures { result ≡ or_of a b }
{
    Part {
        empty: one(a.empty, b.empty),
        first: a.first | b.first,
        last: a.last | b.last,
    }
}

// Each position of first follows each of last.
fn linked(follow: [u32; limits::STATES], last: u32, first: u32) -> [u32; limits::STATES]
    ensures { result ≡ linked_of follow last first }
{
    let mut out = [0u32; limits::STATES];
    for (i, mask) in out.iter_mut().enumerate() {
        let ends = masks::member(last, StateNumber(i as u8));
        *mask = follow[i] | kept(ends, first);
    }
    out
}

// No part at all: no alternative yet.
fn no_part() -> Part
    ensures { result ≡ no_part }
{
    Part {
        empty: false,
        first: 0,
        last: 0,
    }
}

// The part with the empty text alone: a sequence of nothing.
fn empty_part() -> Part
    ensures { result ≡ empty_part }
{
    Part {
        empty: true,
        first: 0,
        last: 0,
    }
}

// The item goes to the end of the sequence.
fn commit(r: Reading) -> Reading
    ensures { result ≡ commit_of r }
{
    let sequence = r.sequence;
    let item = r.item;
    let follow = r.follow;
    let whole = then_part(sequence, item);
    let none = empty_part();
    let links = linked(follow, sequence.last, item.first);
    let mut s = r;
    s.sequence = whole;
    s.item = none;
    s.follow = links;
    s
}

// A letter is the next item.
fn read_letter(r: Reading, a: u8) -> Reading
    ensures { result ≡ letter_of r a }
{
    let q = (r.letters % limits::MOST_STATES + 1) % limits::MOST_STATES;
    let i = (a as usize) % limits::SYMBOLS;
    let mask = masks::singleton(StateNumber(q));
    let part = Part {
        empty: false,
        first: mask,
        last: mask,
    };
    let mut positions = r.positions;
    positions[i] = positions[i] | mask;
    let mut s = r;
    s.letters = q;
    s.item = part;
    s.positions = positions;
    s
}

// The sequence is one alternative more.
fn read_bar(r: Reading) -> Reading
    ensures { result ≡ bar_of r }
{
    let alternatives = r.alternatives;
    let sequence = r.sequence;
    let whole = or_part(alternatives, sequence);
    let none = empty_part();
    let mut s = r;
    s.alternatives = whole;
    s.sequence = none;
    s.item = none;
    s
}

// A bracket opens: alternatives and sequence are put on the stack.
fn open_bracket(r: Reading) -> Reading
    ensures { result ≡ opened_of r }
{
    let alternatives = r.alternatives;
    let sequence = r.sequence;
    let d = (r.depth % patterns::DEPTH) as usize;
    let mut stack = r.stack;
    stack[d] = Frame {
        alternatives,
        sequence,
    };
    let no = no_part();
    let none = empty_part();
    let mut s = r;
    s.depth = r.depth % patterns::DEPTH + 1;
    s.alternatives = no;
    s.sequence = none;
    s.item = none;
    s.stack = stack;
    s
}

// A bracket closes: what stood in it is the next item.
fn close_bracket(r: Reading) -> Reading
    ensures { result ≡ closed_of r }
{
    let alternatives = r.alternatives;
    let sequence = r.sequence;
    let d = (r.depth as usize + patterns::PATTERN - 1) % patterns::PATTERN;
    let stack = r.stack;
    let frame = stack[d];
    let whole = or_part(alternatives, sequence);
    let outer = frame.alternatives;
    let before = frame.sequence;
    let mut s = r;
    s.depth = d as u8;
    s.alternatives = outer;
    s.sequence = before;
    s.item = whole;
    s
}

// A star: the item's first positions follow its last.
fn read_star(r: Reading) -> Reading
    ensures { result ≡ starred_of r }
{
    let item = r.item;
    let follow = r.follow;
    let links = linked(follow, item.last, item.first);
    let part = Part {
        empty: true,
        first: item.first,
        last: item.last,
    };
    let mut s = r;
    s.item = part;
    s.follow = links;
    s
}

// One sign more.
fn read_sign(r: Reading, sign: Sign) -> Reading
    ensures { result ≡ after_sign r sign }
{
    match sign {
        Sign::Letter(a) => read_letter(commit(r), a),
        Sign::Bar => read_bar(commit(r)),
        Sign::Opens => open_bracket(commit(r)),
        Sign::Closes => close_bracket(commit(r)),
        Sign::Star => read_star(r),
        Sign::Foreign => r,
    }
}

// Before the first byte.
fn begin() -> Reading
    ensures { result ≡ beginning }
{
    let no = no_part();
    let none = empty_part();
    Reading {
        depth: 0,
        letters: 0,
        alternatives: no,
        sequence: none,
        item: none,
        stack: [Frame {
            alternatives: no,
            sequence: no,
        }; patterns::PATTERN],
        follow: [0u32; limits::STATES],
        positions: [0u32; limits::SYMBOLS],
    }
}

// After the last byte.
fn read_all(bytes: &[u8]) -> Reading
    ensures { result ≡ after_bytes beginning bytes.now }
{
    let mut r = begin();
    for byte in bytes {
        let sign = patternscan::sign_of(*byte);
        r = read_sign(r, sign);
    }
    r
}

// The masks of the arcs, for each state and symbol: those that may come next and have the letter.
fn fill_targets(
    rows: [u32; limits::STATES],
    positions: [u32; limits::SYMBOLS],
) -> [u32; limits::TARGETS]
    ensures { result ≡ targets_of rows positions }
{
    let mut t = [0u32; limits::TARGETS];
    for (c, target) in t.iter_mut().enumerate() {
        *target = rows[c / limits::SYMBOLS] & positions[c % limits::SYMBOLS];
    }
    t
}

// The rule of a pattern that was read to its end.
fn rule_from(r: Reading) -> Rule
    ensures { result ≡ rule_from r }
{
    let part = r.alternatives;
    let positions = r.positions;
    let mut rows = r.follow;
    rows[0] = part.first;
    let targets = fill_targets(rows, positions);
    let start = kept(part.empty, 1);
    Rule {
        n: r.letters % limits::MOST_STATES + 1,
        k: limits::MOST_SYMBOLS,
        initials: 1,
        finals: start | part.last,
        targets,
    }
}

// The rule of the positions of a pattern. Of other bytes, or where there are more brackets or
// letters than a reading has room for, it is some rule.
pub fn read_rule(bytes: &[u8]) -> Rule
    ensures { result ≡ rule_read bytes.now }
{
    let read = read_all(bytes);
    let whole = read_bar(commit(read));
    rule_from(whole)
}
