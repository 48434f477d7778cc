// Following a trace that comes in order, for C, Rust and Python. Answers are numbers; a follower is a
// value that the caller keeps and hands in.
#![tactic(auto)]

ghost use Rattle.std.specs.Prelude.{◌≡◌};
ghost use Rattle.base.specs.Options.{option_of};
ghost use Rattle.follow.specs.Following.{follow_outcome, follow_of, follow_by_of, prepare_of};
ghost use Rattle.c_follow.specs.Numbers.{lost_flag, at_by, follow_shown, prepare_shown};

use automaton::Rule;
use base::Refusal;
use follow::{Followed, Follower};

// Accepted is 1 or 0; where it is 0, refused has the number, and every other field is 0. Ends is 1
// where a final state is in the set. Lost is 1 where no final state can be reached any more, and at has
// the least number of bytes of the chunk, idle marks counted, after which that is so. Expected has bit s
// for symbol s: what could have stood at byte at - 1, or what could come next. Complete is 1 where the
// end could have stood there, or can stand here.
#[repr(C)]
#[derive(Clone, Copy)]
pub struct FollowNumbers {
    pub accepted: u8,
    pub refused: u8,
    pub ends: u8,
    pub lost: u8,
    pub at: u32,
    pub set: u32,
    pub expected: u16,
    pub complete: u8,
}

// Accepted is 1 or 0; where it is 0, refused has the number, and every number of the follower is 0.
#[repr(C)]
#[derive(Clone, Copy)]
pub struct FollowerNumbers {
    pub accepted: u8,
    pub refused: u8,
    pub follower: Follower,
}

// How many bytes a follower has as C lays it out.
const FOLLOWER_SIZE: usize = 2064;

fn lost_flag(lost: Option<u32>) -> u8
    ensures { result ≡ lost_flag (option_of lost) }
{
    match lost {
        None => 0,
        Some(_) => 1,
    }
}

fn lost_at(lost: Option<u32>) -> u32
    ensures { result ≡ at_by (option_of lost) }
{
    match lost {
        None => 0,
        Some(at) => at,
    }
}

// What following answered, in numbers.
fn in_numbers(answer: Result<Followed, Refusal>) -> FollowNumbers
    ensures { result ≡ follow_shown (follow_outcome answer) }
{
    let shown = flags::shown(&answer);
    match answer {
        Ok(followed) => FollowNumbers {
            accepted: shown.accepted,
            refused: shown.refused,
            ends: flags::bit(followed.ends),
            lost: lost_flag(followed.lost),
            at: lost_at(followed.lost),
            set: followed.set,
            expected: followed.expected,
            complete: flags::bit(followed.complete),
        },
        Err(_) => FollowNumbers {
            accepted: shown.accepted,
            refused: shown.refused,
            ends: 0,
            lost: 0,
            at: 0,
            set: 0,
            expected: 0,
            complete: 0,
        },
    }
}

// Follows a chunk, which may be any bytes, from a set of states of a rule, which may be any value.
pub fn bellbadger_follow(rule: Rule, set: u32, chunk: &[u8]) -> FollowNumbers
    ensures { result ≡ follow_shown (follow_of rule set chunk.now) }
{
    in_numbers(follow::follow(rule, set, chunk))
}

// The size of the follower that the library was built with.
pub fn bellbadger_follower_size() -> usize
    ensures { result ≡ 2064 }
{
    FOLLOWER_SIZE
}

// Checks a rule, which may be any value, to follow many chunks by it.
pub fn bellbadger_follower_prepare(rule: Rule) -> FollowerNumbers
    ensures { result ≡ prepare_shown (prepare_of rule) }
{
    let prepared = follow::prepare(rule);
    let shown = flags::shown(&prepared);
    match prepared {
        Ok(follower) => FollowerNumbers {
            accepted: shown.accepted,
            refused: shown.refused,
            follower,
        },
        Err(_) => {
            let rule = rulefile::no_rule();
            let follower = Follower { rule, live: 0 };
            FollowerNumbers {
                accepted: shown.accepted,
                refused: shown.refused,
                follower,
            }
        }
    }
}

// Follows a chunk by a follower, in which any numbers may stand.
pub fn bellbadger_follow_by(follower: Follower, set: u32, chunk: &[u8]) -> FollowNumbers
    ensures { result ≡ follow_shown (follow_by_of follower set chunk.now) }
{
    in_numbers(follow::follow_by(follower, set, chunk))
}
