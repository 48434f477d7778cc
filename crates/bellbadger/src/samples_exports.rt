// A sample trace of a rule, for C: the functions of the library c_samples.
ghost use Rattle.std.specs.Prelude.{◌≡◌};
ghost use Rattle.samples.specs.Values.{outcome_of};
ghost use Rattle.samples.specs.Search.{sample_of};
ghost use Rattle.c_samples.specs.Numbers.{wish_of, sample_shown};

use automaton::Rule;
use c_samples::SampleNumbers;

// Wish 0 asks for a text that the rule accepts, any other for one that it does not accept.
#[unsafe(no_mangle)]
pub extern "C" fn bellbadger_sample(wish: u8, rule: Rule) -> SampleNumbers
    ensures { result ≡ sample_shown (outcome_of (sample_of rule (wish_of wish))) }
{
    c_samples::bellbadger_sample(wish, rule)
}
