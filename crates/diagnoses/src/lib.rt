// Where a trace is lost: the first place after whose chunk no text can follow that the rule accepts.
// It is known as soon as the places up to there are filled. Nothing is changed, and no byte of a
// chunk is looked at.
#![tactic(auto)]

ghost use Rattle.std.specs.Prelude.{◌≡◌, suc, ◌≤◌, eqb, get_or};
ghost use Rattle.limits.specs.Limits.{most_places};
ghost use Rattle.diagnoses.specs.Diagnosing.{finding_means, diagnosis_means, find_from, lost_after, diagnosis_of};

use base::Refusal;
use calls::Judge;

// Lost at the place; or not lost, with the number of places that are filled before the first empty
// one.
#[derive(Clone, Copy, Debug, PartialEq, Eq)]
pub enum Diagnosis {
    Lost(u8),
    Open(u8),
}

// The first of the places that is empty, or past whose chunk C has no member that has a delegate.
fn find_loss<'a>(
    filled: &'a [u8; limits::PLACES],
    ends: &'a [u32; limits::ENDS],
    delegates: [u8; limits::STATES],
    n: u8,
    initials: u32,
    places: usize,
) -> Diagnosis
    requires { places ≤ most_places }
    ensures { finding_means result ≡ find_from (λ p. eqb (get_or filled.now p 0) 0) (λ p. lost_after ends.now delegates n initials (suc p)) 0 places }
{
    let states = n.min(limits::MOST_STATES);
    let mut set = initials;
    for place in 0..places {
        if filled[place] == 0 {
            return Diagnosis::Open(place as u8);
        }
        set = joins::join_place(ends, &delegates, states as usize, set, place);
        if chunks::delegate_mask(delegates, n, set) == 0 {
            return Diagnosis::Lost(place as u8);
        }
    }
    Diagnosis::Open(places as u8)
}

// Where the trace is lost, or how far it is there.
pub fn diagnose(judge: Judge) -> Result<Diagnosis, Refusal>
    ensures { diagnosis_means result ≡ diagnosis_of judge }
{
    let board = judge.board;
    if board.places == 0 {
        return Err(Refusal::NoBoard);
    }
    let built = judge.built;
    let delegates = built.delegates;
    let places = board::places_of(board.places);
    Ok(find_loss(
        &board.filled,
        &board.ends,
        delegates,
        built.n,
        built.initials,
        places,
    ))
}
