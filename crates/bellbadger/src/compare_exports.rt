// Two rules compared, for C: the functions of the library c_compare.
ghost use Rattle.std.specs.Prelude.{◌≡◌};
ghost use Rattle.compare.specs.Values.{outcome_of};
ghost use Rattle.compare.specs.Search.{compare_of};
ghost use Rattle.c_compare.specs.Numbers.{comparison_shown};

use automaton::Rule;
use c_compare::CompareNumbers;

// The first text that exactly one of the two rules accepts. The rules may be any values.
#[unsafe(no_mangle)]
pub extern "C" fn bellbadger_compare(one: Rule, two: Rule) -> CompareNumbers
    ensures { result ≡ comparison_shown (outcome_of (compare_of one two)) }
{
    c_compare::bellbadger_compare(one, two)
}
