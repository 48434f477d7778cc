// A judge as bytes, and back, for C, Rust and Python. The answer to restoring is numbers.
#![tactic(auto)]

ghost use Rattle.std.specs.Prelude.{◌≡◌};
ghost use Rattle.saved_judge.specs.Saved.{saved_of, restore_of};
ghost use Rattle.saved_judge.specs.Claims.{Fits};
ghost use Rattle.c_saved.specs.Numbers.{restore_shown};

use calls::Judge;
use saved_judge::Saved;

// Accepted is 1 or 0; where it is 0, refused has the number, and every number of the judge is 0.
#[repr(C)]
#[derive(Clone, Copy)]
pub struct RestoreNumbers {
    pub accepted: u8,
    pub refused: u8,
    pub judge: Judge,
}

// The judge, which may be any value, as bytes: its numbers are those of the type.
pub fn bellbadger_save(judge: Judge) -> Saved
    ensures { Fits judge × (result.bytes ≡ saved_of judge) }
{
    saved_judge::save(judge)
}

// The judge that was saved as the bytes, which may be any.
pub fn bellbadger_restore(bytes: &[u8]) -> RestoreNumbers
    ensures { result ≡ restore_shown (restore_of bytes.now) }
{
    let restored = saved_judge::restore(bytes);
    let shown = flags::shown(&restored);
    match restored {
        Ok(judge) => RestoreNumbers {
            accepted: shown.accepted,
            refused: shown.refused,
            judge,
        },
        Err(_) => {
            let built = build::nothing_built();
            let board = board::empty_board(0);
            let judge = Judge { built, board };
            RestoreNumbers {
                accepted: shown.accepted,
                refused: shown.refused,
                judge,
            }
        }
    }
}
