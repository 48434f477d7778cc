// Mappings from each state to a set of states, by value, and as one number.
#![tactic(auto)]

ghost use Rattle.std.specs.Prelude.{◌≡◌, cond, ◌%◌, ◌^◌, ◌<◌, ltb};
ghost use Rattle.masks.specs.Masks.{single};
ghost use Rattle.automaton.specs.Rules.{target_mask};
ghost use Rattle.mappings.specs.Mappings.{mapped_states, image as image_of, compose as compose_of, identity as identityOf, letter as letter_of};
ghost use Rattle.mappings.specs.Packing.{pack as packOf, unpack as unpackOf};

// The most states of a mapping: a mask has a bit for each.
pub const STATES: usize = 8;

// How many values a mask can have.
const MASKS: u64 = 256;

// The set that each of eight states is mapped to: masks[q] is that of state q.
#[repr(C)]
#[derive(Clone, Copy)]
pub struct Mapping {
    pub masks: [u8; STATES],
}

// Every state that a member of the set is mapped to.
pub fn image(masks: &[u8; STATES], set: u8) -> u8
    ensures { result ≡ image_of masks.now set }
{
    let cells: &[u8] = masks;
    let mut q: usize = 0;
    let mut rest = set;
    let mut out: u8 = 0;
    while rest != 0 {
        if rest & 1 == 1 {
            out = out | cells[q];
        }
        rest = rest >> 1;
        q += 1;
    }
    out
}

// The mapping of two chunks, one behind the other, from those of each: the earlier chunk's is
// applied first. Any two values compose.
pub fn compose(earlier: Mapping, later: Mapping) -> Mapping
    ensures { result.masks ≡ compose_of earlier.masks later.masks }
{
    let first = earlier.masks;
    let second = later.masks;
    let mut masks = [0u8; STATES];
    for (q, mask) in masks.iter_mut().enumerate() {
        *mask = image(&second, first[q]);
    }
    Mapping { masks }
}

// The set {q} of one of n states; else the empty set.
fn own_set(n: u8, q: usize) -> u8
    requires { q < mapped_states }
    ensures { result ≡ cond (ltb q n) (single q) 0 }
{
    if q < n as usize { 1u8 << q } else { 0 }
}

// Each of n states is mapped to the set of itself, the others to the empty set.
pub fn identity(n: u8) -> Mapping
    ensures { result.masks ≡ identityOf n }
{
    let mut masks = [0u8; STATES];
    for (q, mask) in masks.iter_mut().enumerate() {
        *mask = own_set(n, q);
    }
    Mapping { masks }
}

// A state's targets by a symbol, those among the first eight states.
fn target(targets: &[u32; limits::TARGETS], q: usize, symbol: u8) -> u8
    requires { q < mapped_states }
    ensures { result ≡ target_mask targets.now q symbol % 2 ^ mapped_states }
{
    if limits::MOST_SYMBOLS <= symbol {
        return 0;
    }
    let mask = targets[q * limits::SYMBOLS + symbol as usize];
    (mask % 256) as u8
}

// Each state's targets by the symbol: the mapping of a text of that symbol alone.
fn letter(targets: &[u32; limits::TARGETS], symbol: u8) -> Mapping
    ensures { result.masks ≡ letter_of targets.now symbol }
{
    let mut masks = [0u8; STATES];
    for (q, mask) in masks.iter_mut().enumerate() {
        *mask = target(targets, q, symbol);
    }
    Mapping { masks }
}

// A mapping as one number: the mask of state 0 stands in the lowest eight bits.
pub fn pack(mapping: Mapping) -> u64
    ensures { result ≡ packOf mapping.masks }
{
    let masks = mapping.masks;
    let mut packed: u64 = 0;
    for q in (0..STATES).rev() {
        packed = packed * MASKS + masks[q] as u64;
    }
    packed
}

// The mapping of a number.
pub fn unpack(packed: u64) -> Mapping
    ensures { result.masks ≡ unpackOf packed }
{
    let mut masks = [0u8; STATES];
    let mut rest = packed;
    for (q, mask) in masks.iter_mut().enumerate() {
        *mask = (rest % MASKS) as u8;
        rest = rest / MASKS;
    }
    Mapping { masks }
}

// The number of the mapping that a mapping leads to by a symbol.
pub fn step(targets: &[u32; limits::TARGETS], packed: u64, symbol: u8) -> u64
    ensures { result ≡ packOf (compose_of (unpackOf packed) (letter_of targets.now symbol)) }
{
    pack(compose(unpack(packed), letter(targets, symbol)))
}
