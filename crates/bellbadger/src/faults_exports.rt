// Where a tray goes wrong, for C: the functions of the library c_faults.
ghost use Rattle.std.specs.Prelude.{◌≡◌};
ghost use Rattle.faults.specs.Faulting.{fault_of};
ghost use Rattle.c_faults.specs.Numbers.{fault_shown};

use c_faults::FaultNumbers;
use trays::Tray;

#[unsafe(no_mangle)]
pub extern "C" fn bellbadger_tray_fault(tray: Tray) -> FaultNumbers
    ensures { result ≡ fault_shown (fault_of tray) }
{
    c_faults::bellbadger_tray_fault(tray)
}
