// Reads a field of 16-bit numbers, little-endian in hex digits, into an array; zeros stand behind
// them.
#![tactic(auto)]

ghost use Rattle.std.specs.Prelude.{◌≡◌, ◌+◌, ◌*◌, ◌%◌, ◌≤◌, length, replicate};
ghost use Rattle.limits.specs.Limits.{most_sets, table_cells};
ghost use Rattle.base.specs.Options.{option_of};
ghost use Rattle.wordfields.specs.Words.{words_of, parse_words, words_mean};

fn pair(low: u8, high: u8) -> u16
    ensures { result ≡ low + 256 * high }
{
    low as u16 + 256 * (high as u16)
}

// The numbers that the bytes stand for, into an array of zeros.
fn fill_words(bytes: &[u8], words: &mut [u16])
    requires { (length bytes.now % 2 ≡ 0) × (length bytes.now ≤ 2 * length words.old) × (words.old ≡ replicate (length words.old) 0) }
    ensures { words.new ≡ words_of (length words.old) bytes.now }
{
    let mut i: usize = 0;
    while 2 * i < bytes.len() {
        words[i] = pair(bytes[2 * i], bytes[2 * i + 1]);
        i += 1;
    }
}

// A field of at most as many numbers as the array has, which is zeros before. `bytes` is for the
// field's bytes, and has one to spare: more of them fill it, and then their number is odd. Whether
// the field says such numbers.
fn read_words(field: &[u8], bytes: &mut [u8], words: &mut [u16]) -> bool
    requires { (length bytes.old ≡ 2 * length words.old + 1) × (words.old ≡ replicate (length words.old) 0) }
    ensures { words_mean result words.new ≡ parse_words (length words.old) field.now }
{
    let Some(n) = fields::read_bytes(field, bytes) else {
        return false;
    };
    if n % 2 == 1 {
        return false;
    }
    fill_words(&bytes[..n], words);
    true
}

// A field of at most 512 numbers, one for each set.
pub fn read_sets(field: &[u8]) -> Option<[u16; limits::SETS]>
    ensures { option_of result ≡ parse_words most_sets field.now }
{
    let mut bytes = [0u8; 2 * limits::SETS + 1];
    let mut words = [0u16; limits::SETS];
    if !read_words(field, &mut bytes, &mut words) {
        return None;
    }
    Some(words)
}

// A field of at most 8,192 numbers, one for each cell.
pub fn read_cells(field: &[u8]) -> Option<[u16; limits::CELLS]>
    ensures { option_of result ≡ parse_words table_cells field.now }
{
    let mut bytes = [0u8; 2 * limits::CELLS + 1];
    let mut words = [0u16; limits::CELLS];
    if !read_words(field, &mut bytes, &mut words) {
        return None;
    }
    Some(words)
}
