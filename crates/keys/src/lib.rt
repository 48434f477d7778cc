// Keys numbered in the order in which a search finds them, and the table of the numbers that each
// leads to: one loop for three kinds of keys.
#![tactic(auto)]

ghost use Rattle.std.specs.Prelude.{◌≡◌, false, ℕ, ◌+◌, ◌*◌, ◌%◌, ◌^◌, ◌≤◌, ◌<◌, eqb, get_or, take};
ghost use Rattle.base.specs.Conditions.{any_below};
ghost use Rattle.base.specs.Options.{option_of};
ghost use Rattle.limits.specs.Limits.{most_symbols, most_sets};
ghost use Rattle.automaton.specs.Successor.{successor as successorOf};
ghost use Rattle.numbering.specs.mirror.Arrays.{found_in, key_cells, Entered, Stepped, InRow, ArraysHold, Expanded, Added};
ghost use Rattle.numbering.specs.Numbering.{close_from};
ghost use Rattle.keys.specs.Kinds.{step_by, nothing, skips_by, free_by, walk_in};
ghost use Rattle.keys.specs.Tables.{table_outcome, table_by, table_of};
ghost use Rattle.keys.specs.mirror.Steps.{found_means, turn_means};

// What a key stands for: a set of states, as a mask; a mapping, as a number of 64 bits; a pair of
// sets of states, the second in the upper 32 bits.
#[derive(Clone, Copy)]
pub enum Kind {
    Sets,
    Mappings,
    Pairs,
}

// The number of a key.
#[derive(Clone, Copy)]
pub struct KeyNumber(pub u16);

// The number of keys, or none where the 513th turned up; the first 512 in number order and the
// table, zeros in every cell that is not in use. Where the 513th turned up, the table has the cells
// before that.
#[derive(Clone, Copy)]
pub struct KeyTable {
    pub count: Option<usize>,
    pub keys: [u64; limits::SETS],
    pub next: [u16; limits::CELLS],
}

// How many keys are compared at once.
const BLOCK: usize = 32;

// The lower half of a key.
pub fn lower(key: u64) -> u32
    ensures { result ≡ key % 2 ^ 32 }
{
    (key % 4294967296) as u32
}

// The set that a set leads to by the symbol.
fn step_set(targets: &[u32; limits::TARGETS], key: u64, symbol: u8) -> u64
    ensures { result ≡ successorOf targets.now key symbol }
{
    automaton::successor(targets, (key % 4294967296) as u32, symbol) as u64
}

// The pair that a pair leads to by the symbol.
fn step_pair(
    targets: &[u32; limits::TARGETS],
    others: &[u32; limits::TARGETS],
    key: u64,
    symbol: u8,
) -> u64
    ensures { result ≡ step_by Kind.Pairs targets.now others.now key symbol }
{
    let first = automaton::successor(targets, (key % 4294967296) as u32, symbol);
    let second = automaton::successor(others, (key / 4294967296) as u32, symbol);
    first as u64 + second as u64 * 4294967296
}

// The key that a key leads to by the symbol.
fn step_key(
    targets: &[u32; limits::TARGETS],
    others: &[u32; limits::TARGETS],
    kind: Kind,
    key: u64,
    symbol: u8,
) -> u64
    ensures { result ≡ step_by kind targets.now others.now key symbol }
{
    match kind {
        Kind::Sets => step_set(targets, key, symbol),
        Kind::Mappings => mappings::step(targets, key, symbol),
        Kind::Pairs => step_pair(targets, others, key, symbol),
    }
}

// Whether a key of the block has this lower half. Without a way out of the loop they are compared
// side by side, and halves in half the time.
fn hits(keys: &[u64; limits::SETS], from: usize, half: u32) -> bool
    requires { from + 32 ≤ most_sets }
    ensures { result ≡ any_below (λ j. eqb (get_or keys.now (from + j) 0 % 2 ^ 32) half) 32 }
{
    let mut found = false;
    for j in 0..BLOCK {
        if lower(keys[from + j]) == half {
            found = true;
        }
    }
    found
}

// Whole blocks that a search among the first cells can pass, since the key is not in them.
fn passed(keys: &[u64; limits::SETS], most: usize, key: u64) -> usize
    requires { most ≤ most_sets }
    ensures { (result ≤ most) × ((j : ℕ) → j < result → get_or keys.now j 0 ≡ key → ⊥) }
{
    let half = lower(key);
    let mut i: usize = 0;
    while BLOCK <= most - i {
        if hits(keys, i, half) {
            return i;
        }
        i += BLOCK;
    }
    i
}

// The number of a key among the first count; a count above 512 is taken for 512.
pub fn find(keys: &[u64; limits::SETS], count: usize, key: u64) -> Option<KeyNumber>
    ensures { found_means result ≡ found_in (take count keys.now) key }
{
    let most = count.min(limits::SETS);
    let mut i = passed(keys, most, key);
    let cells: &[u64] = keys;
    // a loop by hand: the paper has the search yield its index by `break`, which no `for` does
    let found = loop {
        if i == most {
            return None;
        }
        if cells[i] == key {
            break i;
        }
        i += 1;
    };
    Some(KeyNumber(found as u16))
}

// A key keeps the number it has among the first count, else it takes the next: its number, and how
// many keys there are then; none where it would be the 513th.
fn number(keys: &mut [u64; limits::SETS], count: usize, key: u64) -> Option<(KeyNumber, usize)>
    requires { (count ≤ most_sets) × (keys.old ≡ key_cells (take count keys.old)) }
    ensures { Entered nothing (take count keys.old) key (turn_means result) keys.new }
{
    match find(keys, count, key) {
        Some(number) => Some((number, count)),
        None => {
            if count < limits::SETS {
                keys[count] = key;
                Some((KeyNumber(count as u16), count + 1))
            } else {
                None
            }
        }
    }
}

// Whether the key is left out: the key 0, where that is asked for.
fn left_out(omit: bool, key: u64) -> bool
    ensures { result ≡ skips_by omit key }
{
    if omit {
        return key == 0;
    }
    false
}

// Key i is expanded by one symbol. The cell of a key that is left out stays as it is. The number of
// keys there are then, or none where the 513th turned up.
fn step(
    targets: &[u32; limits::TARGETS],
    others: &[u32; limits::TARGETS],
    kind: Kind,
    omit: bool,
    keys: &mut [u64; limits::SETS],
    next: &mut [u16; limits::CELLS],
    count: usize,
    i: KeyNumber,
    symbol: u8,
) -> Option<usize>
    requires count_le_most_sets { (count ≤ most_sets) × (keys.old ≡ key_cells (take count keys.old)) × (i.0 < count) }
    requires symbol_lt_most_symbols { skips_by omit (step_by kind targets.now others.now (get_or keys.old i.0 0) symbol) ≡ false → symbol < most_symbols }
    ensures { Stepped (step_by kind targets.now others.now) (skips_by omit) (take count keys.old) i.0 symbol (option_of result) keys.new next.old next.new }
{
    let row = i.0 as usize;
    let key = step_key(targets, others, kind, keys[row], symbol);
    if left_out(omit, key) {
        return Some(count);
    }
    let (number, after) = number(keys, count, key)?;
    next[row * limits::SYMBOLS + symbol as usize] = number.0;
    Some(after)
}

// The keys from number first on are expanded in number order, those that turn up on the way too;
// the key 0 is left out where omit says so. The number of keys, or none where the 513th turned up.
fn expand(
    targets: &[u32; limits::TARGETS],
    others: &[u32; limits::TARGETS],
    kind: Kind,
    omit: bool,
    k: u8,
    keys: &mut [u64; limits::SETS],
    next: &mut [u16; limits::CELLS],
    first: KeyNumber,
    from: usize,
) -> Option<usize>
    requires from_le_most_sets { (from ≤ most_sets) × (first.0 ≤ from) × ArraysHold (walk_in kind omit targets.now others.now k) (free_by omit) (take from keys.old) (first.0 * most_symbols) keys.old next.old }
    requires in_row { InRow (walk_in kind omit targets.now others.now k) }
    ensures { Expanded (walk_in kind omit targets.now others.now k) (free_by omit) (close_from (walk_in kind omit targets.now others.now k) most_sets first.0 (take from keys.old)) (option_of result) keys.new next.new }
{
    let mut count = from;
    let mut i = first.0 as usize;
    // a loop by hand: the list grows on the way; the paper has a label leave it at the 513th set
    'expand: loop {
        if i == count {
            break 'expand Some(count);
        }
        for symbol in 0..k {
            match step(
                targets,
                others,
                kind,
                omit,
                keys,
                next,
                count,
                KeyNumber(i as u16),
                symbol,
            ) {
                Some(after) => {
                    count = after;
                }
                None => {
                    break 'expand None;
                }
            }
        }
        i += 1;
    }
}

// A key that is not left out is numbered, and the keys that are not yet expanded, which are those
// from number count on, are. The number of keys, or none where the 513th turned up.
pub fn add(
    targets: &[u32; limits::TARGETS],
    others: &[u32; limits::TARGETS],
    kind: Kind,
    omit: bool,
    k: u8,
    keys: &mut [u64; limits::SETS],
    next: &mut [u16; limits::CELLS],
    count: usize,
    key: u64,
) -> Option<usize>
    requires count_le_most_sets { (count ≤ most_sets) × (skips_by omit key ≡ false) × ArraysHold (walk_in kind omit targets.now others.now k) (free_by omit) (take count keys.old) (count * most_symbols) keys.old next.old }
    requires in_row { InRow (walk_in kind omit targets.now others.now k) }
    ensures { Added (walk_in kind omit targets.now others.now k) (free_by omit) (take count keys.old) key (option_of result) keys.new next.new }
{
    let (_, after) = number(keys, count, key)?;
    expand(
        targets,
        others,
        kind,
        omit,
        k,
        keys,
        next,
        KeyNumber(count as u16),
        after,
    )
}

// The keys that texts of symbols below k lead to from the key start, in the order in which they are
// found, and the table of what each leads to; a value of k above 16 is taken for 16. The second set
// of a pair goes by the table others.
pub fn number_by(
    targets: &[u32; limits::TARGETS],
    others: &[u32; limits::TARGETS],
    kind: Kind,
    k: u8,
    start: u64,
) -> KeyTable
    ensures { table_outcome result ≡ table_by kind targets.now others.now k start }
{
    let mut keys = [0u64; limits::SETS];
    let mut next = [0u16; limits::CELLS];
    let symbols = k.min(limits::MOST_SYMBOLS);
    let count = add(
        targets, others, kind, false, symbols, &mut keys, &mut next, 0, start,
    );
    KeyTable { count, keys, next }
}

// Those where one table is both.
pub fn number_keys(targets: &[u32; limits::TARGETS], kind: Kind, k: u8, start: u64) -> KeyTable
    ensures { table_outcome result ≡ table_of kind targets.now k start }
{
    number_by(targets, targets, kind, k, start)
}
