// Where a trace is lost, for C: the functions of the library c_losses.
ghost use Rattle.std.specs.Prelude.{◌≡◌};
ghost use Rattle.diagnoses.specs.Diagnosing.{diagnosis_of};
ghost use Rattle.locating.specs.Locating.{spot_of};
ghost use Rattle.c_losses.specs.Numbers.{diagnosis_shown, spot_shown};

use c_losses::{DiagnosisNumbers, SpotNumbers};
use calls::Judge;

#[unsafe(no_mangle)]
pub extern "C" fn bellbadger_diagnose(judge: Judge) -> DiagnosisNumbers
    ensures { result ≡ diagnosis_shown (diagnosis_of judge) }
{
    c_losses::bellbadger_diagnose(judge)
}

#[unsafe(no_mangle)]
pub extern "C" fn bellbadger_locate(judge: Judge, place: usize, chunk: &[u8]) -> SpotNumbers
    ensures { result ≡ spot_shown (spot_of judge place chunk.now) }
{
    c_losses::bellbadger_locate(judge, place, chunk)
}
