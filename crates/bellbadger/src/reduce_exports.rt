// Reducing a rule, for C: the functions of the library c_reduce.
ghost use Rattle.std.specs.Prelude.{◌≡◌};
ghost use Rattle.reducing.specs.Reducing.{reduce_of};
ghost use Rattle.c_reduce.specs.Numbers.{reduce_shown};

use automaton::Rule;
use c_reduce::ReduceNumbers;

// Reduces a rule, which may be any value.
#[unsafe(no_mangle)]
pub extern "C" fn bellbadger_reduce(rule: Rule) -> ReduceNumbers
    ensures { result ≡ reduce_shown (reduce_of rule) }
{
    c_reduce::bellbadger_reduce(rule)
}
