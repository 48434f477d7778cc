// The mapping machine of a rule of at most eight states. It is built once; a chunk is then one run,
// which answers the chunk's mapping, and mappings say yes or no.
#![tactic(auto)]

ghost use Rattle.std.specs.Prelude.{◌≡◌, List, ℕ, ◌≤◌, length};
ghost use Rattle.limits.specs.Limits.{longest_chunk};
ghost use Rattle.marks.specs.Marks.{text_of};
ghost use Rattle.mappings.specs.Claims.{Small};
ghost use Rattle.profile.specs.Profiles.{no_profile, build_outcome, build_of};
ghost use Rattle.profile.specs.Runs.{walk_to, run_outcome, run_of, Lends, verdict_of};

use automaton::Rule;
use base::Refusal;
use keys::Kind;
use mappings::Mapping;

// The mappings of a rule, each as one number, and the table: the number of the mapping that mapping
// i leads to by symbol s stands at i * 16 + s.
#[repr(C)]
#[derive(Clone, Copy)]
pub struct Profile {
    pub n: u8,
    pub k: u8,
    pub initials: u8,
    pub finals: u8,
    pub count: u16,
    pub mappings: [u64; limits::SETS],
    pub next: [u16; limits::CELLS],
}

// Zeros in every field.
pub fn nothing_built() -> Profile
    ensures { result ≡ no_profile }
{
    let mappings = [0u64; limits::SETS];
    let next = [0u16; limits::CELLS];
    Profile {
        n: 0,
        k: 0,
        initials: 0,
        finals: 0,
        count: 0,
        mappings,
        next,
    }
}

// The machine of a rule that passes the check and has at most eight states; or refused where it has
// more than 512 mappings (34).
fn build_small(rule: Rule) -> Result<Profile, Refusal>
    requires { Small rule }
    ensures { build_outcome result ≡ build_of rule }
{
    let n = rule.n;
    let start = mappings::pack(mappings::identity(n));
    let table = keys::number_keys(&rule.targets, Kind::Mappings, rule.k, start);
    let Some(count) = table.count else {
        return Err(Refusal::TooManyMappings);
    };
    let mappings = table.keys;
    let next = table.next;
    Ok(Profile {
        n,
        k: rule.k,
        initials: rule.initials as u8,
        finals: rule.finals as u8,
        count: count as u16,
        mappings,
        next,
    })
}

// Checks and builds a rule, which may be any value; or refused, with 33 where it has more than eight
// states.
pub fn build(rule: Rule) -> Result<Profile, Refusal>
    ensures { build_outcome result ≡ build_of rule }
{
    rulecheck::check_rule(rule)?;
    if mappings::STATES < rule.n as usize {
        return Err(Refusal::TooManyStates);
    }
    build_small(rule)
}

// The number of the mapping that the text leads to from number 0. Whatever the table holds, an
// index is taken modulo its size.
fn walk(next: &[u16; limits::CELLS], text: &[u8]) -> u16
    ensures { result ≡ walk_to next.now 0 text.now }
{
    let cells: &[u16] = next;
    let mut number: u16 = 0;
    for byte in text {
        let row = (number as usize) % limits::SETS;
        let symbol = (*byte as usize) % limits::SYMBOLS;
        number = cells[row * limits::SYMBOLS + symbol];
    }
    number
}

// What a run comes to from 13 on, of any chunk that has this text, on any profile that has this
// number of symbols, this table and these mappings.
fn run_text<'a>(
    k: u8,
    next: &'a [u16; limits::CELLS],
    packed: &'a [u64; limits::SETS],
    text: &[u8],
) -> Result<Mapping, Refusal>
    ensures { (p : Profile) (w : List ℕ) → Lends p k next.now packed.now → length w ≤ longest_chunk → text_of w ≡ text.now → run_outcome result ≡ run_of p w }
{
    if chunks::has_foreign(text, k) {
        return Err(Refusal::ForeignByte);
    }
    let cells: &[u64] = packed;
    let number = walk(next, text) as usize;
    Ok(mappings::unpack(cells[number % limits::SETS]))
}

// The same of a chunk with idle marks: its text is packed once, and run from there.
fn run_marked<'a>(
    k: u8,
    next: &'a [u16; limits::CELLS],
    packed: &'a [u64; limits::SETS],
    chunk: &[u8],
) -> Result<Mapping, Refusal>
    requires { length chunk.now ≤ longest_chunk }
    ensures { (p : Profile) → Lends p k next.now packed.now → run_outcome result ≡ run_of p chunk.now }
{
    let mut buffer = [0u8; limits::CHUNK];
    let n = marks::pack(chunk, &mut buffer);
    run_text(k, next, packed, &buffer[..n])
}

// The mapping of a chunk's text, which is the chunk without its idle marks, on a profile that is not
// copied: its number of symbols, its table and its mappings are lent.
pub fn run_lent<'a>(
    k: u8,
    next: &'a [u16; limits::CELLS],
    packed: &'a [u64; limits::SETS],
    chunk: &[u8],
) -> Result<Mapping, Refusal>
    ensures { (p : Profile) → Lends p k next.now packed.now → run_outcome result ≡ run_of p chunk.now }
{
    if limits::CHUNK < chunk.len() {
        return Err(Refusal::LongChunk);
    }
    if marks::has_marks(chunk) {
        return run_marked(k, next, packed, chunk);
    }
    run_text(k, next, packed, chunk)
}

// The same on a profile by value.
pub fn run(profile: Profile, chunk: &[u8]) -> Result<Mapping, Refusal>
    ensures { run_outcome result ≡ run_of profile chunk.now }
{
    run_lent(profile.k, &profile.next, &profile.mappings, chunk)
}

// Whether the mapping leads from an initial state to a final one.
pub fn says_yes(profile: Profile, mapping: Mapping) -> bool
    ensures { result ≡ verdict_of profile mapping.masks }
{
    let masks = mapping.masks;
    mappings::image(&masks, profile.initials) & profile.finals != 0
}
