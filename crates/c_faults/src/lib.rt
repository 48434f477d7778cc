// Where a tray goes wrong, for C, Rust and Python. The answer is numbers, and the tray stays as it
// is.
#![tactic(auto)]

ghost use Rattle.std.specs.Prelude.{◌≡◌};
ghost use Rattle.faults.specs.Faulting.{fault_of};
ghost use Rattle.c_faults.specs.Numbers.{fault_shown};

use faults::TrayFault;
use trays::Tray;

// Kind 0: refused with the number; 6: open, with that number of bands before the first empty one;
// 7: the row of the band is not accepted; 8: the column is lost, with the row of the band; 9: the
// column is not accepted, though it could go on. What a kind has no use for is 0.
#[repr(C)]
#[derive(Clone, Copy)]
pub struct FaultNumbers {
    pub kind: u8,
    pub number: u8,
    pub column: u8,
    pub band: u8,
    pub row: u8,
}

pub fn bellbadger_tray_fault(tray: Tray) -> FaultNumbers
    ensures { result ≡ fault_shown (fault_of tray) }
{
    match faults::fault(tray) {
        Err(refusal) => FaultNumbers {
            kind: 0,
            number: refusal.number(),
            column: 0,
            band: 0,
            row: 0,
        },
        Ok(TrayFault::Row { band, row }) => FaultNumbers {
            kind: 7,
            number: 0,
            column: 0,
            band,
            row,
        },
        Ok(TrayFault::Column { column, band, row }) => FaultNumbers {
            kind: 8,
            number: 0,
            column,
            band,
            row,
        },
        Ok(TrayFault::Short(column)) => FaultNumbers {
            kind: 9,
            number: 0,
            column,
            band: 0,
            row: 0,
        },
        Ok(TrayFault::Open(number)) => FaultNumbers {
            kind: 6,
            number,
            column: 0,
            band: 0,
            row: 0,
        },
    }
}
