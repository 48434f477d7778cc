// The join of the end sets that a board holds, place by place. Any value is taken: a number of
// states above 32 counts as 32.
#![tactic(auto)]

ghost use Rattle.std.specs.Prelude.{◌≡◌, ◌≤◌, ◌<◌};
ghost use Rattle.limits.specs.Limits.{most_states, most_places};
ghost use Rattle.masks.specs.Masks.{union};
ghost use Rattle.delegates.specs.Alike.{delegate_in, of_delegate};
ghost use Rattle.board.specs.Boards.{places_of};
ghost use Rattle.board.specs.Boards.{held_in};
ghost use Rattle.joins.specs.Joining.{join_up_to, says_yes};

use board::Board;
use delegates::DelegateAnswer;
use masks::StateNumber;

// The end set of state q at a place.
fn end_set(ends: &[u32; limits::ENDS], place: usize, q: StateNumber) -> u32
    requires { (place < most_places) × (q.0 < most_states) }
    ensures { result ≡ held_in ends.now place q.0 }
{
    let i = q.0 as usize;
    ends[place * limits::STATES + i]
}

// The union of the end sets, at a place, of the delegates of the members of set; a member that has
// none is passed over. n is the number of states.
pub fn join_place(
    ends: &[u32; limits::ENDS],
    delegates: &[u8; limits::STATES],
    n: usize,
    set: u32,
    place: usize,
) -> u32
    requires { (n ≤ most_states) × (place < most_places) }
    ensures { result ≡ union (λ q. of_delegate (held_in ends.now place) (delegate_in delegates.now q)) set n }
{
    let mut joined: u32 = 0;
    let mut q: usize = 0;
    // a loop by hand: it has counted on before the test, so that `continue` skips no more than q, and
    // an edit can have it skip the rest
    while q < n {
        let state = StateNumber(q as u8);
        q += 1;
        if masks::member(set, state) {
            let DelegateAnswer::State(delegate) = delegates::delegate_at(delegates, state) else {
                continue;
            };
            joined = masks::union(joined, end_set(ends, place, delegate));
        }
    }
    joined
}

// C after the first places.
pub fn join_places(
    ends: &[u32; limits::ENDS],
    delegates: &[u8; limits::STATES],
    n: u8,
    initials: u32,
    places: usize,
) -> u32
    requires { places ≤ most_places }
    ensures { result ≡ join_up_to ends.now delegates.now n initials places }
{
    let states = n.min(limits::MOST_STATES);
    let mut set = initials;
    for place in 0..places {
        set = join_place(ends, delegates, states as usize, set, place);
    }
    set
}

// C after all places.
pub fn join(board: Board, delegates: [u8; limits::STATES], n: u8, initials: u32) -> u32
    ensures { result ≡ join_up_to board.ends delegates n initials (places_of board) }
{
    let places = board::places_of(board.places);
    join_places(&board.ends, &delegates, n, initials, places)
}

// Whether C has a final state after all places.
pub fn says_yes(
    board: Board,
    delegates: [u8; limits::STATES],
    n: u8,
    initials: u32,
    finals: u32,
) -> bool
    ensures { result ≡ says_yes board.ends delegates n initials finals (places_of board) }
{
    masks::meets(join(board, delegates, n, initials), finals)
}
