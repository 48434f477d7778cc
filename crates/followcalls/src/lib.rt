// The calls of a trace follower: one rule at most is held, with the set that its trace has reached, by
// value.
#![tactic(auto)]

ghost use Rattle.std.specs.Prelude.{◌≡◌};
ghost use Rattle.std.proofs.Math.Option.{none, some};
ghost use Rattle.base.specs.Options.{option_of};
ghost use Rattle.follow.specs.Following.{prepare_outcome};
ghost use Rattle.followcalls.specs.Calls.{begins, follows, none_yet, follower_in, followed_by, call_step, answer_means, traced_means};

use base::Refusal;
use follow::Follower;

// The rule that the trace is followed by, and the set of states that it has reached. No rule has no
// states, so a follower whose rule has none is none.
#[derive(Clone, Copy)]
pub struct FollowState {
    pub follower: Follower,
    pub set: u32,
}

// What a call is answered; or that a line is no call.
#[derive(Clone, Copy)]
pub enum TraceAnswer {
    Forgotten,
    Begun,
    Yes(u16),
    No(u16),
    Lost(u32, u16),
    Refused(Refusal),
    Malformed,
}

// The answer, and the state that the call leaves.
#[derive(Clone, Copy)]
pub struct Traced {
    pub answer: TraceAnswer,
    pub state: FollowState,
}

// No rule.
pub fn fresh() -> FollowState
    ensures { result ≡ none_yet }
{
    let rule = rulefile::no_rule();
    let follower = Follower { rule, live: 0 };
    FollowState { follower, set: 0 }
}

// Reads a rule file and prepares its rule.
fn prepare_file(file: &[u8]) -> Result<Follower, Refusal>
    ensures { prepare_outcome result ≡ follower_in file.now }
{
    let rule = rulefile::read(file)?;
    follow::prepare(rule)
}

// Begins a trace by the rule in a file; a refused file changes nothing.
pub fn begin(state: FollowState, file: &[u8]) -> Traced
    ensures { traced_means result ≡ call_step state (begins file.now) }
{
    match prepare_file(file) {
        Err(refusal) => {
            let answer = TraceAnswer::Refused(refusal);
            Traced { answer, state }
        }
        Ok(follower) => {
            let answer = TraceAnswer::Begun;
            let set = follower.rule.initials;
            let state = FollowState { follower, set };
            Traced { answer, state }
        }
    }
}

// What a chunk that was followed is answered.
fn said(lost: Option<u32>, ends: bool, expected: u16) -> TraceAnswer
    ensures { answer_means result ≡ some (followed_by none (option_of lost) ends expected) }
{
    match lost {
        Some(bytes) => TraceAnswer::Lost(bytes, expected),
        None => {
            if ends {
                TraceAnswer::Yes(expected)
            } else {
                TraceAnswer::No(expected)
            }
        }
    }
}

// Follows the next chunk of the trace; a refused chunk changes nothing.
pub fn next(state: FollowState, chunk: &[u8]) -> Traced
    ensures { traced_means result ≡ call_step state (follows chunk.now) }
{
    let follower = state.follower;
    if follower.rule.n == 0 {
        let answer = TraceAnswer::Refused(Refusal::NoRule);
        return Traced { answer, state };
    }
    match follow::follow_by(follower, state.set, chunk) {
        Err(refusal) => {
            let answer = TraceAnswer::Refused(refusal);
            Traced { answer, state }
        }
        Ok(followed) => {
            let answer = said(followed.lost, followed.ends, followed.expected);
            let set = followed.set;
            let state = FollowState { follower, set };
            Traced { answer, state }
        }
    }
}
