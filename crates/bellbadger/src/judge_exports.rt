// The judge, for C: the functions of the library capi.
ghost use Rattle.std.specs.Prelude.{◌≡◌, ◌+◌, ◌*◌};
ghost use Rattle.ruleformat.specs.Reader.{read_of};
ghost use Rattle.calls.specs.mirror.Steps.{fresh, install_of, load_of, open_of, deliver_of, withdraw_of, report_of};
ghost use Rattle.replay.specs.Records.{record_in, replay_of};
ghost use Rattle.capi.specs.Numbers.{read_shown, install_shown, call_shown, deliver_shown, verdict_shown, replay_shown};

use automaton::Rule;
use calls::Judge;
use capi::{
    CallNumbers, DeliverNumbers, InstallNumbers, ReadNumbers, ReplayNumbers, VerdictNumbers,
};

// The version that the library was built with: the major number times 65,536, and the minor one.
#[unsafe(no_mangle)]
pub extern "C" fn bellbadger_version() -> u32
    ensures { result ≡ 5 * 65536 + 8 }
{
    capi::bellbadger_version()
}

// The size of the judge that the library was built with.
#[unsafe(no_mangle)]
pub extern "C" fn bellbadger_state_size() -> usize
    ensures { result ≡ 27832 }
{
    capi::bellbadger_state_size()
}

#[unsafe(no_mangle)]
pub extern "C" fn bellbadger_new() -> Judge
    ensures { result ≡ fresh }
{
    capi::bellbadger_new()
}

// The rule in a file, by value; no judge is asked for.
#[unsafe(no_mangle)]
pub extern "C" fn bellbadger_read(file: &[u8]) -> ReadNumbers
    ensures { result ≡ read_shown (read_of file.now) }
{
    capi::bellbadger_read(file)
}

#[unsafe(no_mangle)]
pub extern "C" fn bellbadger_install(judge: Judge, rule: Rule) -> InstallNumbers
    ensures { result ≡ install_shown (install_of judge rule) }
{
    capi::bellbadger_install(judge, rule)
}

#[unsafe(no_mangle)]
pub extern "C" fn bellbadger_load(judge: Judge, file: &[u8]) -> InstallNumbers
    ensures { result ≡ install_shown (load_of judge file.now) }
{
    capi::bellbadger_load(judge, file)
}

#[unsafe(no_mangle)]
pub extern "C" fn bellbadger_open(judge: Judge, places: usize) -> CallNumbers
    ensures { result ≡ call_shown (open_of judge places) }
{
    capi::bellbadger_open(judge, places)
}

#[unsafe(no_mangle)]
pub extern "C" fn bellbadger_deliver(
    judge: Judge,
    place: usize,
    revision: u32,
    chunk: &[u8],
) -> DeliverNumbers
    ensures { result ≡ deliver_shown (deliver_of judge place revision chunk.now) }
{
    capi::bellbadger_deliver(judge, place, revision, chunk)
}

#[unsafe(no_mangle)]
pub extern "C" fn bellbadger_withdraw(judge: Judge, place: usize) -> CallNumbers
    ensures { result ≡ call_shown (withdraw_of judge place) }
{
    capi::bellbadger_withdraw(judge, place)
}

#[unsafe(no_mangle)]
pub extern "C" fn bellbadger_verdict(judge: Judge) -> VerdictNumbers
    ensures { result ≡ verdict_shown (report_of judge) }
{
    capi::bellbadger_verdict(judge)
}

// The calls that the text records, and the verdict after them.
#[unsafe(no_mangle)]
pub extern "C" fn bellbadger_replay(text: &[u8]) -> ReplayNumbers
    ensures { result ≡ replay_shown (replay_of (record_in text.now)) }
{
    capi::bellbadger_replay(text)
}
