// The failure form of a next-set table, and the table that it stands for.
#![tactic(auto)]

ghost use Rattle.std.specs.Prelude.{◌≡◌, ◌<◌};
ghost use Rattle.limits.specs.Limits.{most_symbols};
ghost use Rattle.masks.specs.Masks.{has};

// For each set its failure set and the mask of its kept cells, bit s for symbol s; then the kept
// cells, packed by set and symbol, 512 for an empty one. The rest is 0.
#[repr(C)]
#[derive(Clone, Copy)]
pub struct Form {
    pub sets: u16,
    pub symbols: u8,
    pub failure: [u16; limits::SETS],
    pub kept: [u16; limits::SETS],
    pub cells: [u16; limits::CELLS],
}

// A next-set table: its numbers of sets and symbols, and its cells as a built rule has them.
#[repr(C)]
#[derive(Clone, Copy)]
pub struct Table {
    pub sets: u16,
    pub symbols: u8,
    pub next: [u16; limits::CELLS],
}

// Whether the mask has the bit of a symbol.
pub fn has_symbol(mask: u16, symbol: usize) -> bool
    requires { symbol < most_symbols }
    ensures { result ≡ has mask symbol }
{
    (mask >> symbol) & 1 == 1
}
