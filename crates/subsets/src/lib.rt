// The sets of states that get a number, in the order of their numbers, and the next-set table: the
// loop of keys from each set {q} in turn, with the empty set left out.
#![tactic(auto)]

ghost use Rattle.std.specs.Prelude.{◌≡◌, ◌%◌, ◌^◌, ◌<◌, get_or};
ghost use Rattle.base.specs.Lists.{list_from};
ghost use Rattle.base.specs.Options.{option_of};
ghost use Rattle.limits.specs.Limits.{most_states, most_sets, empty_set};
ghost use Rattle.numbering.specs.mirror.Arrays.{Cleared, Grown};
ghost use Rattle.subsets.specs.Sets.{set_walk, sets_of};
ghost use Rattle.subsets.specs.mirror.Singles.{singleton_number, singles_of};
ghost use Rattle.subsets.specs.mirror.Answer.{table_outcome, table_of};

use keys::Kind;
use masks::StateNumber;

// The number of a set, which is never the number of a state.
#[derive(Clone, Copy)]
pub struct SetNumber(pub u16);

// The numbered sets and how many they are, the next-set table, and the number of {q} for each state
// q.
#[derive(Clone, Copy)]
pub struct SetTable {
    pub count: usize,
    pub sets: [u32; limits::SETS],
    pub next: [u16; limits::CELLS],
    pub singles: [u16; limits::STATES],
}

// The numbered sets of a rule with n states and k symbols, and its next-set table, into two arrays
// where no cell is in use; a value of n above 32 is taken for 32. How many they are, or none where
// the 513th turns up; what is left in the two arrays is free then.
fn fill(
    targets: &[u32; limits::TARGETS],
    n: u8,
    k: u8,
    sets: &mut [u64; limits::SETS],
    next: &mut [u16; limits::CELLS],
) -> Option<usize>
    requires { Cleared empty_set sets.old next.old }
    ensures { Grown (set_walk targets.now k) empty_set (sets_of targets.now n k) (option_of result) sets.new next.new }
{
    let mut count: usize = 0;
    for q in 0..n.min(limits::MOST_STATES) {
        let set = masks::singleton(StateNumber(q)) as u64;
        count = keys::add(
            targets,
            targets,
            Kind::Sets,
            true,
            k,
            sets,
            next,
            count,
            set,
        )?;
    }
    Some(count)
}

// The number of {q} among the first count sets, or 512, which stands for the empty set.
fn number_single(sets: &[u64; limits::SETS], count: usize, q: StateNumber) -> SetNumber
    requires { q.0 < most_states }
    ensures { result.0 ≡ singleton_number sets.now count q.0 }
{
    match keys::find(sets, count, masks::singleton(q) as u64) {
        Some(number) => SetNumber(number.0),
        None => SetNumber(limits::EMPTY),
    }
}

// The number of {q} for each state q.
pub fn number_singles(sets: &[u64; limits::SETS], count: usize) -> [u16; limits::STATES]
    ensures { result ≡ singles_of sets.now count }
{
    let mut singles = [0u16; limits::STATES];
    for (q, single) in singles.iter_mut().enumerate() {
        let number = number_single(sets, count, StateNumber(q as u8));
        *single = number.0;
    }
    singles
}

// The sets as masks: the lower half of each.
fn masks_of(sets: &[u64; limits::SETS]) -> [u32; limits::SETS]
    ensures { result ≡ list_from 0 most_sets (λ i. get_or sets.now i 0 % 2 ^ 32) }
{
    let mut masks = [0u32; limits::SETS];
    for (i, mask) in masks.iter_mut().enumerate() {
        *mask = keys::lower(sets[i]);
    }
    masks
}

// The numbered sets, the next-set table and the singletons' numbers of a rule with n states and k
// symbols, or none where there are more than 512 sets (9). A value of n above 32 is taken for 32.
pub fn number_sets(targets: &[u32; limits::TARGETS], n: u8, k: u8) -> Option<SetTable>
    ensures { table_outcome result ≡ table_of targets.now n k }
{
    let mut found = [0u64; limits::SETS];
    let mut next = [limits::EMPTY; limits::CELLS];
    let count = fill(targets, n, k, &mut found, &mut next)?;
    let singles = number_singles(&found, count);
    let sets = masks_of(&found);
    Some(SetTable {
        count,
        sets,
        next,
        singles,
    })
}
