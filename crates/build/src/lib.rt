// Builds a rule: its numbered sets, its next-set table, its delegates and the number of its starts.
#![tactic(auto)]

ghost use Rattle.std.specs.Prelude.{◌≡◌};
ghost use Rattle.build.specs.mirror.Building.{no_built, build_outcome, build_of};

use automaton::Rule;
use base::Refusal;

// A rule that is built. startcount is M; singles has the number of {q} for each state q. Any cell
// of next or singles at or above 512 reads as the empty set, any cell of delegates at or above 32
// as none.
#[repr(C)]
#[derive(Clone, Copy)]
pub struct Built {
    pub n: u8,
    pub k: u8,
    pub startcount: u8,
    pub setcount: u16,
    pub initials: u32,
    pub finals: u32,
    pub delegates: [u8; limits::STATES],
    pub singles: [u16; limits::STATES],
    pub sets: [u32; limits::SETS],
    pub next: [u16; limits::CELLS],
}

// Zeros in every field.
pub fn nothing_built() -> Built
    ensures { result ≡ no_built }
{
    let delegates = [0u8; limits::STATES];
    let singles = [0u16; limits::STATES];
    let sets = [0u32; limits::SETS];
    let next = [0u16; limits::CELLS];
    Built {
        n: 0,
        k: 0,
        startcount: 0,
        setcount: 0,
        initials: 0,
        finals: 0,
        delegates,
        singles,
        sets,
        next,
    }
}

// The rule built, or refused where it has more than 512 sets (9). Any value is taken, also one that
// no file gives.
pub fn build_rule(rule: Rule) -> Result<Built, Refusal>
    ensures { build_outcome result ≡ build_of rule }
{
    let n = rule.n;
    let k = rule.k;
    let finals = rule.finals;
    let Some(table) = subsets::number_sets(&rule.targets, n, k) else {
        return Err(Refusal::TooManySets);
    };
    let sets = table.sets;
    let next = table.next;
    let singles = table.singles;
    let merged = delegates::merge_starts(&sets, &next, &singles, finals, n, k);
    let delegates = merged.delegates;
    Ok(Built {
        n: n.min(limits::MOST_STATES),
        k: k.min(limits::MOST_SYMBOLS),
        startcount: merged.startcount,
        setcount: table.count as u16,
        initials: rule.initials,
        finals,
        delegates,
        singles,
        sets,
        next,
    })
}
