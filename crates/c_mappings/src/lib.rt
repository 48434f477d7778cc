// The mapping machine for C and Rust. Answers are numbers; a profile and a mapping are values that
// the caller keeps and hands in.
#![tactic(auto)]

ghost use Rattle.std.specs.Prelude.{◌≡◌};
ghost use Rattle.profile.specs.Profiles.{build_of};
ghost use Rattle.profile.specs.Runs.{run_of, verdict_of};
ghost use Rattle.mappings.specs.Mappings.{compose as compose_of};
ghost use Rattle.c_mappings.specs.Numbers.{build_shown, run_shown, mapping_shown, verdict_shown};

use automaton::Rule;
use mappings::Mapping;
use profile::Profile;

// Accepted is 1 or 0; where it is 0, refused has the number, and every number of the profile is 0.
// How many mappings there are stands in the profile.
#[repr(C)]
#[derive(Clone, Copy)]
pub struct BuildNumbers {
    pub accepted: u8,
    pub refused: u8,
    pub profile: Profile,
}

// Accepted is 1 or 0; where it is 0, refused has the number, and every mask of the mapping is 0.
#[repr(C)]
#[derive(Clone, Copy)]
pub struct RunNumbers {
    pub accepted: u8,
    pub refused: u8,
    pub mapping: Mapping,
}

// How many bytes a profile has as C lays it out.
const PROFILE_SIZE: usize = 20488;

// The size of the profile that the library was built with.
pub fn bellbadger_profile_size() -> usize
    ensures { result ≡ 20488 }
{
    PROFILE_SIZE
}

// Checks a rule, which may be any value, and builds its profile.
pub fn bellbadger_profile_build(rule: Rule) -> BuildNumbers
    ensures { result ≡ build_shown (build_of rule) }
{
    let built = profile::build(rule);
    let shown = flags::shown(&built);
    match built {
        Ok(profile) => BuildNumbers {
            accepted: shown.accepted,
            refused: shown.refused,
            profile,
        },
        Err(_) => {
            let profile = profile::nothing_built();
            BuildNumbers {
                accepted: shown.accepted,
                refused: shown.refused,
                profile,
            }
        }
    }
}

// The mapping of a chunk.
pub fn bellbadger_profile_run(profile: Profile, chunk: &[u8]) -> RunNumbers
    ensures { result ≡ run_shown (run_of profile chunk.now) }
{
    let ran = profile::run(profile, chunk);
    let shown = flags::shown(&ran);
    match ran {
        Ok(mapping) => RunNumbers {
            accepted: shown.accepted,
            refused: shown.refused,
            mapping,
        },
        Err(_) => {
            let masks = [0u8; mappings::STATES];
            RunNumbers {
                accepted: shown.accepted,
                refused: shown.refused,
                mapping: Mapping { masks },
            }
        }
    }
}

// The mapping of two chunks, one behind the other, from those of each: any two values compose.
pub fn bellbadger_compose(earlier: Mapping, later: Mapping) -> Mapping
    ensures { result ≡ mapping_shown (compose_of earlier.masks later.masks) }
{
    mappings::compose(earlier, later)
}

// 1 for yes, 0 for no.
pub fn bellbadger_profile_verdict(profile: Profile, mapping: Mapping) -> u8
    ensures { result ≡ verdict_shown (verdict_of profile mapping.masks) }
{
    if profile::says_yes(profile, mapping) {
        1
    } else {
        0
    }
}
