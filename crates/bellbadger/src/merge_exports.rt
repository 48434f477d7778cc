// Merging two rules, for C: the functions of the library c_merge.
ghost use Rattle.std.specs.Prelude.{◌≡◌};
ghost use Rattle.merging.specs.Merging.{way_of, merge_of};
ghost use Rattle.c_merge.specs.Numbers.{merge_shown};

use automaton::Rule;
use c_merge::MergeNumbers;

// Way 0 is a text that both rules accept, 1 a text that either accepts, any other an interleaving
// of one from each.
#[unsafe(no_mangle)]
pub extern "C" fn bellbadger_merge(way: u8, one: Rule, two: Rule) -> MergeNumbers
    ensures { result ≡ merge_shown (merge_of (way_of way) one two) }
{
    c_merge::bellbadger_merge(way, one, two)
}
