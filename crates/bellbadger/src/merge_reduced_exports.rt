// Merging two rules, reduced, for C: the functions of the library c_mergereduced.
ghost use Rattle.std.specs.Prelude.{◌≡◌};
ghost use Rattle.merging.specs.Merging.{way_of};
ghost use Rattle.mergereduce.specs.MergeReduced.{merge_reduced_of};
ghost use Rattle.c_merge.specs.Numbers.{merge_shown};

use automaton::Rule;
use c_merge::MergeNumbers;

// Way 0 is a text that both rules accept, 1 a text that either accepts, any other an interleaving
// of one from each.
#[unsafe(no_mangle)]
pub extern "C" fn bellbadger_merge_reduced(way: u8, one: Rule, two: Rule) -> MergeNumbers
    ensures { result ≡ merge_shown (merge_reduced_of (way_of way) one two) }
{
    c_mergereduced::bellbadger_merge_reduced(way, one, two)
}
