// A tray by a rule for its rows and one for its columns, for C: the functions of the library c_trays.
ghost use Rattle.std.specs.Prelude.{◌≡◌};
ghost use Rattle.trays.specs.mirror.Steps.{fresh, install_row_of, install_column_of, open_of, deliver_of, withdraw_of, verdict_of};
ghost use Rattle.c_trays.specs.Numbers.{install_shown, call_shown, verdict_shown};

use automaton::Rule;
use c_trays::{CallNumbers, InstallNumbers, VerdictNumbers};
use trays::Tray;

// The size of the tray that the library was built with.
#[unsafe(no_mangle)]
pub extern "C" fn bellbadger_tray_size() -> usize
    ensures { result ≡ 12332 }
{
    c_trays::bellbadger_tray_size()
}

#[unsafe(no_mangle)]
pub extern "C" fn bellbadger_tray_new() -> Tray
    ensures { result ≡ fresh }
{
    c_trays::bellbadger_tray_new()
}

#[unsafe(no_mangle)]
pub extern "C" fn bellbadger_tray_install_row(tray: Tray, rule: Rule) -> InstallNumbers
    ensures { result ≡ install_shown (install_row_of tray rule) }
{
    c_trays::bellbadger_tray_install_row(tray, rule)
}

#[unsafe(no_mangle)]
pub extern "C" fn bellbadger_tray_install_column(tray: Tray, rule: Rule) -> InstallNumbers
    ensures { result ≡ install_shown (install_column_of tray rule) }
{
    c_trays::bellbadger_tray_install_column(tray, rule)
}

#[unsafe(no_mangle)]
pub extern "C" fn bellbadger_tray_open(tray: Tray, width: usize, bands: usize) -> CallNumbers
    ensures { result ≡ call_shown (open_of tray width bands) }
{
    c_trays::bellbadger_tray_open(tray, width, bands)
}

#[unsafe(no_mangle)]
pub extern "C" fn bellbadger_tray_deliver(tray: Tray, band: usize, rows: &[u8]) -> CallNumbers
    ensures { result ≡ call_shown (deliver_of tray band rows.now) }
{
    c_trays::bellbadger_tray_deliver(tray, band, rows)
}

#[unsafe(no_mangle)]
pub extern "C" fn bellbadger_tray_withdraw(tray: Tray, band: usize) -> CallNumbers
    ensures { result ≡ call_shown (withdraw_of tray band) }
{
    c_trays::bellbadger_tray_withdraw(tray, band)
}

#[unsafe(no_mangle)]
pub extern "C" fn bellbadger_tray_verdict(tray: Tray) -> VerdictNumbers
    ensures { result ≡ verdict_shown (verdict_of tray) }
{
    c_trays::bellbadger_tray_verdict(tray)
}
