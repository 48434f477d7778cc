// The mapping machine, for C: the functions of the library c_mappings.
ghost use Rattle.std.specs.Prelude.{◌≡◌};
ghost use Rattle.profile.specs.Profiles.{build_of};
ghost use Rattle.profile.specs.Runs.{run_of, verdict_of};
ghost use Rattle.mappings.specs.Mappings.{compose as compose_of};
ghost use Rattle.c_mappings.specs.Numbers.{build_shown, run_shown, mapping_shown, verdict_shown};

use automaton::Rule;
use c_mappings::{BuildNumbers, RunNumbers};
use mappings::Mapping;
use profile::Profile;

// The size of the profile that the library was built with.
#[unsafe(no_mangle)]
pub extern "C" fn bellbadger_profile_size() -> usize
    ensures { result ≡ 20488 }
{
    c_mappings::bellbadger_profile_size()
}

// Checks a rule, which may be any value, and builds its profile.
#[unsafe(no_mangle)]
pub extern "C" fn bellbadger_profile_build(rule: Rule) -> BuildNumbers
    ensures { result ≡ build_shown (build_of rule) }
{
    c_mappings::bellbadger_profile_build(rule)
}

// The mapping of a chunk.
#[unsafe(no_mangle)]
pub extern "C" fn bellbadger_profile_run(profile: Profile, chunk: &[u8]) -> RunNumbers
    ensures { result ≡ run_shown (run_of profile chunk.now) }
{
    c_mappings::bellbadger_profile_run(profile, chunk)
}

// The mapping of two chunks, one behind the other, from those of each: any two values compose.
#[unsafe(no_mangle)]
pub extern "C" fn bellbadger_compose(earlier: Mapping, later: Mapping) -> Mapping
    ensures { result ≡ mapping_shown (compose_of earlier.masks later.masks) }
{
    c_mappings::bellbadger_compose(earlier, later)
}

// 1 for yes, 0 for no.
#[unsafe(no_mangle)]
pub extern "C" fn bellbadger_profile_verdict(profile: Profile, mapping: Mapping) -> u8
    ensures { result ≡ verdict_shown (verdict_of profile mapping.masks) }
{
    c_mappings::bellbadger_profile_verdict(profile, mapping)
}
