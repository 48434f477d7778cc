// The text that leads to a key, read off the table of keys on the way back to key 0.
#![tactic(auto)]

ghost use Rattle.std.specs.Prelude.{◌≡◌, ◌≤◌, ◌<◌, length, drop};
ghost use Rattle.limits.specs.Limits.{most_symbols, most_sets};
ghost use Rattle.searches.specs.Search.{first_cell, word_to};
ghost use Rattle.searches.specs.Texts.{longest_text};
ghost use Rattle.searches.specs.mirror.Tables.{Tabled, FirstIn, Spells};

use keys::KeyNumber;

// The most symbols of a text that is found. At most 512 keys are searched, and each that the way to
// the last one passes is a symbol further.
pub const LONGEST: usize = limits::SETS - 1;

// A text at the end of an array, where the way back leaves it.
#[derive(Clone, Copy)]
struct Ending {
    from: usize,
    text: [u8; LONGEST],
}

// A text with its length, and zeros after it.
#[derive(Clone, Copy)]
pub struct Spelled {
    pub length: usize,
    pub text: [u8; LONGEST],
}

// The first of k symbols by which a key leads to another; k where none does.
fn first_symbol(next: &[u16; limits::CELLS], from: KeyNumber, k: usize, to: KeyNumber) -> usize
    requires { (from.0 < most_sets) × (k ≤ most_symbols) }
    ensures { FirstIn next.now from.0 k to.0 result }
{
    let row = from.0 as usize;
    for s in 0..k {
        if next[row * limits::SYMBOLS + s] == to.0 {
            return s;
        }
    }
    k
}

// The first cell of the table that holds the number, which is that of a key found from another. It
// was found from a lower one, so the rows of these are enough.
fn first_cell(next: &[u16; limits::CELLS], k: usize, number: KeyNumber) -> usize
    requires { (0 < number.0) × Tabled next.now k number.0 }
    ensures { result ≡ first_cell next.now number.0 }
{
    for row in 0..number.0 {
        let symbol = first_symbol(next, KeyNumber(row), k, number);
        if symbol < k {
            return row as usize * limits::SYMBOLS + symbol;
        }
    }
    limits::CELLS
}

// The text on the way back from the number to 0.
fn walk_back(next: &[u16; limits::CELLS], k: usize, number: KeyNumber) -> Ending
    requires { Tabled next.now k number.0 }
    ensures { (result.from ≤ longest_text) × (length result.text ≡ longest_text) × (drop result.from result.text ≡ word_to next.now number.0) }
{
    let mut text = [0u8; LONGEST];
    let mut from: usize = LONGEST;
    let mut at = number.0;
    while at != 0 {
        let cell = first_cell(next, k, KeyNumber(at));
        from -= 1;
        text[from] = (cell % limits::SYMBOLS) as u8;
        at = (cell / limits::SYMBOLS) as u16;
    }
    Ending { from, text }
}

// A text at the front of an array.
fn front_text(word: &[u8]) -> Spelled
    requires { length word.now ≤ longest_text }
    ensures { Spells result word.now }
{
    let mut text = [0u8; LONGEST];
    text[..word.len()].copy_from_slice(word);
    Spelled {
        length: word.len(),
        text,
    }
}

// The text on the way back from the number.
pub fn spell(next: &[u16; limits::CELLS], k: usize, number: KeyNumber) -> Spelled
    requires { Tabled next.now k number.0 }
    ensures { Spells result (word_to next.now number.0) }
{
    let back = walk_back(next, k, number);
    let text = back.text;
    let from = back.from;
    front_text(&text[from..])
}
