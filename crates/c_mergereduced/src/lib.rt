// Merging two rules, reduced, for C, Rust and Python. The answer is the numbers of merging.
#![tactic(auto)]

ghost use Rattle.std.specs.Prelude.{◌≡◌};
ghost use Rattle.merging.specs.Merging.{way_of};
ghost use Rattle.mergereduce.specs.MergeReduced.{merge_reduced_of};
ghost use Rattle.c_merge.specs.Numbers.{merge_shown};

use automaton::Rule;
use c_merge::MergeNumbers;

// Way 0 is a text that both rules accept, 1 a text that either accepts, any other an interleaving
// of one from each.
pub fn bellbadger_merge_reduced(way: u8, one: Rule, two: Rule) -> MergeNumbers
    ensures { result ≡ merge_shown (merge_reduced_of (way_of way) one two) }
{
    c_merge::in_numbers(mergereduced::merge_reduced(merge::way_of(way), one, two))
}
