// Where a trace is lost, for C, Rust and Python. The answers are numbers, and the judge stays as it is.
#![tactic(auto)]

ghost use Rattle.std.specs.Prelude.{◌≡◌};
ghost use Rattle.diagnoses.specs.Diagnosing.{diagnosis_of};
ghost use Rattle.locating.specs.Locating.{spot_of};
ghost use Rattle.c_losses.specs.Numbers.{diagnosis_shown, spot_shown};

use calls::Judge;
use diagnoses::Diagnosis;

// Kind 0: refused with the number; 5: lost at the place of that number; 6: open, with that many
// places.
#[repr(C)]
#[derive(Clone, Copy)]
pub struct DiagnosisNumbers {
    pub kind: u8,
    pub number: u8,
}

// Kind 0: refused with the number; 5: lost after that many bytes of the chunk, idle marks counted; 6:
// nowhere in it.
#[repr(C)]
#[derive(Clone, Copy)]
pub struct SpotNumbers {
    pub kind: u8,
    pub number: u32,
}

// A number in 32 bits.
fn wide(number: u8) -> u32
    ensures { result ≡ number }
{
    number as u32
}

pub fn bellbadger_diagnose(judge: Judge) -> DiagnosisNumbers
    ensures { result ≡ diagnosis_shown (diagnosis_of judge) }
{
    match diagnoses::diagnose(judge) {
        Ok(Diagnosis::Lost(number)) => DiagnosisNumbers { kind: 5, number },
        Ok(Diagnosis::Open(number)) => DiagnosisNumbers { kind: 6, number },
        Err(refusal) => DiagnosisNumbers {
            kind: 0,
            number: refusal.number(),
        },
    }
}

pub fn bellbadger_locate(judge: Judge, place: usize, chunk: &[u8]) -> SpotNumbers
    ensures { result ≡ spot_shown (spot_of judge place chunk.now) }
{
    match locating::locate(judge, place, chunk) {
        Ok(Some(number)) => SpotNumbers { kind: 5, number },
        Ok(None) => SpotNumbers { kind: 6, number: 0 },
        Err(refusal) => SpotNumbers {
            kind: 0,
            number: wide(refusal.number()),
        },
    }
}
