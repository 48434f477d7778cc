// Following a trace that comes in order, for C: the functions of the library c_follow.
ghost use Rattle.std.specs.Prelude.{◌≡◌};
ghost use Rattle.follow.specs.Following.{follow_of, follow_by_of, prepare_of};
ghost use Rattle.c_follow.specs.Numbers.{follow_shown, prepare_shown};

use automaton::Rule;
use c_follow::{FollowNumbers, FollowerNumbers};
use follow::Follower;

// Follows a chunk, which may be any bytes, from a set of states of a rule, which may be any value.
#[unsafe(no_mangle)]
pub extern "C" fn bellbadger_follow(rule: Rule, set: u32, chunk: &[u8]) -> FollowNumbers
    ensures { result ≡ follow_shown (follow_of rule set chunk.now) }
{
    c_follow::bellbadger_follow(rule, set, chunk)
}

// The size of the follower that the library was built with.
#[unsafe(no_mangle)]
pub extern "C" fn bellbadger_follower_size() -> usize
    ensures { result ≡ 2064 }
{
    c_follow::bellbadger_follower_size()
}

// Checks a rule, which may be any value, to follow many chunks by it.
#[unsafe(no_mangle)]
pub extern "C" fn bellbadger_follower_prepare(rule: Rule) -> FollowerNumbers
    ensures { result ≡ prepare_shown (prepare_of rule) }
{
    c_follow::bellbadger_follower_prepare(rule)
}

// Follows a chunk by a follower, in which any numbers may stand.
#[unsafe(no_mangle)]
pub extern "C" fn bellbadger_follow_by(follower: Follower, set: u32, chunk: &[u8]) -> FollowNumbers
    ensures { result ≡ follow_shown (follow_by_of follower set chunk.now) }
{
    c_follow::bellbadger_follow_by(follower, set, chunk)
}
