// The live states of a rule: those from which a final state can be reached.
#![tactic(auto)]

ghost use Rattle.std.specs.Prelude.{◌≡◌, ◌<◌};
ghost use Rattle.limits.specs.Limits.{most_states};
ghost use Rattle.live.specs.Live.{leads as leadsTo, back_to, within};

use masks::StateNumber;

// Whether some arc leads from the state to a member of the set.
fn leads(targets: &[u32; limits::TARGETS], set: u32, q: StateNumber) -> bool
    requires { q.0 < most_states }
    ensures { result ≡ leadsTo targets.now set q.0 }
{
    let row = q.0 as usize;
    for s in 0..limits::SYMBOLS {
        if masks::meets(targets[row * limits::SYMBOLS + s], set) {
            return true;
        }
    }
    false
}

// The set, with every state from which an arc leads to a member of it.
fn back_to(targets: &[u32; limits::TARGETS], set: u32) -> u32
    ensures { result ≡ back_to targets.now set }
{
    let mut found: u32 = 0;
    for q in 0..limits::MOST_STATES {
        if leads(targets, set, StateNumber(q)) {
            found = masks::union(found, masks::singleton(StateNumber(q)));
        }
    }
    masks::union(set, found)
}

// The states from which a final state can be reached: backwards from the final states, until
// nothing is new, which is so after 32 rounds at the latest.
pub fn live_states(targets: &[u32; limits::TARGETS], finals: u32) -> u32
    ensures { result ≡ within targets.now finals most_states }
{
    let mut live = finals;
    for _round in 0..limits::STATES {
        let more = back_to(targets, live);
        if more == live {
            return live;
        }
        live = more;
    }
    live
}
