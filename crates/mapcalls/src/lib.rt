// The calls of a mapping judge: one profile at most is held, by value. A call that does not change it
// answers from the value at hand and returns none.
#![tactic(auto)]

ghost use Rattle.std.specs.Prelude.{◌≡◌};
ghost use Rattle.mapcalls.specs.Calls.{builds, runs, composes, asks, none_yet, reply_of, next_of, reply_means};

use base::Refusal;
use mappings::Mapping;
use profile::Profile;

// The profile, if there is one.
#[derive(Clone, Copy)]
pub struct MapState {
    pub profile: Option<Profile>,
}

// What a call is answered.
#[derive(Clone, Copy)]
pub enum MapAnswer {
    Forgotten,
    Built(u16),
    Mapped(Mapping),
    Yes,
    No,
    Lacking,
    Refused(Refusal),
}

// What a build is answered, and the state that it leaves.
#[derive(Clone, Copy)]
pub struct MapBuilding {
    pub reply: MapAnswer,
    pub state: MapState,
}

// No profile.
pub fn fresh() -> MapState
    ensures { result ≡ none_yet }
{
    MapState { profile: None }
}

// Builds the profile of the rule in a file; a refused build keeps the former profile.
pub fn build(state: MapState, file: &[u8]) -> MapBuilding
    ensures { (reply_means result.reply ≡ reply_of state (builds file.now)) × (result.state ≡ next_of state (builds file.now)) }
{
    match profilefile::build_file(file) {
        Ok(profile) => {
            let reply = MapAnswer::Built(profile.count);
            let state = MapState {
                profile: Some(profile),
            };
            MapBuilding { reply, state }
        }
        Err(refusal) => {
            let reply = MapAnswer::Refused(refusal);
            MapBuilding { reply, state }
        }
    }
}

// Runs a chunk on the profile.
pub fn run(state: &MapState, chunk: &[u8]) -> MapAnswer
    ensures { reply_means result ≡ reply_of state.now (runs chunk.now) }
{
    let Some(profile) = &state.profile else {
        return MapAnswer::Lacking;
    };
    match profile::run_lent(profile.k, &profile.next, &profile.mappings, chunk) {
        Ok(mapping) => MapAnswer::Mapped(mapping),
        Err(refusal) => MapAnswer::Refused(refusal),
    }
}

// The mapping of two chunks, one behind the other, from those of each.
pub fn compose(earlier: Mapping, later: Mapping) -> MapAnswer
    ensures { (s : MapState) → reply_means result ≡ reply_of s (composes earlier.masks later.masks) }
{
    MapAnswer::Mapped(mappings::compose(earlier, later))
}

// Whether the mapping says yes.
pub fn ask(state: &MapState, mapping: Mapping) -> MapAnswer
    ensures { reply_means result ≡ reply_of state.now (asks mapping.masks) }
{
    let Some(profile) = &state.profile else {
        return MapAnswer::Lacking;
    };
    if profile::says_yes(*profile, mapping) {
        return MapAnswer::Yes;
    }
    MapAnswer::No
}
