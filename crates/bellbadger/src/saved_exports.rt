// A judge as bytes, and back, for C: the functions of the library c_saved.
ghost use Rattle.std.specs.Prelude.{◌≡◌};
ghost use Rattle.saved_judge.specs.Saved.{saved_of, restore_of};
ghost use Rattle.saved_judge.specs.Claims.{Fits};
ghost use Rattle.c_saved.specs.Numbers.{restore_shown};

use c_saved::RestoreNumbers;
use calls::Judge;
use saved_judge::Saved;

// The judge, which may be any value, as bytes: its numbers are those of the type.
#[unsafe(no_mangle)]
pub extern "C" fn bellbadger_save(judge: Judge) -> Saved
    ensures { Fits judge × (result.bytes ≡ saved_of judge) }
{
    c_saved::bellbadger_save(judge)
}

// The judge that was saved as the bytes, which may be any.
#[unsafe(no_mangle)]
pub extern "C" fn bellbadger_restore(bytes: &[u8]) -> RestoreNumbers
    ensures { result ≡ restore_shown (restore_of bytes.now) }
{
    c_saved::bellbadger_restore(bytes)
}
