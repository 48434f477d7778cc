// Standard input and output for the programs: nothing is lost in silence. A call that a signal
// interrupts, or that would have to wait on a descriptor that does not wait, is tried again, for as
// long as it takes; any other failure is told on standard error. What is known of the bytes that a
// stream holds is proved of what is read and written. Of the system's own streams nothing is known: a
// test holds those.
#![tactic(auto)]

ghost use Rattle.std.specs.Prelude.{◌≡◌, ◌≤◌, ◌<◌, length, take, false, true};
ghost use Rattle.std.specs.Io.KnownBytes.{Appends, Consumes, IsAtEnd};
ghost use Rattle.stdio.specs.Blocks.{Whole, Brings};

use std::env::FillError;
use std::rt::{Clock, Env};
use std::time::Duration;
use std::{fmt, io, thread};

// What a program takes of the runtime: its standard streams, memory for a line on standard error, and
// the clock by which it waits.
pub trait Streams: io::Input + Print + Eprint + Alloc + Clock {}

impl Streams for HostRuntime {}

// What a read brought: so many bytes at the start of the buffer; none at the end of the input, and
// where it failed.
#[derive(Clone, Copy)]
pub struct Read {
    pub length: usize,
    pub failed: bool,
}

// The same of the whole input, as far as the buffer goes.
#[derive(Clone, Copy)]
pub enum Input {
    Bytes(usize),
    Failed,
}

// How many times a call is tried again: as a proved loop ends, a number, which no run uses up.
const TRIES: u64 = u64::MAX;

// The first so many tries come as soon as others have run, and each further one after a longer nap.
const SOON: u64 = 10;

// How long such a nap is, in milliseconds.
const NAP: u64 = 2;

// Bytes shown as text, with a mark in the place of those that are none.
#[derive(Drop)]
struct Shown<'a>(&'a [u8]);

impl fmt::Display for Shown<'_> {
    fn fmt<W: fmt::Write>(&self, f: &mut fmt::Formatter<W>) -> fmt::Result {
        for chunk in self.0.utf8_chunks() {
            f.write_str(chunk.valid())?;
            if !chunk.invalid().is_empty() {
                f.write_str("\u{FFFD}")?;
            }
        }
        Ok(())
    }
}

// Whether a call that failed may succeed later.
fn is_early(error: &io::Error) -> bool {
    let kind = error.kind();
    kind == io::ErrorKind::WouldBlock || kind == io::ErrorKind::Interrupted
}

// After a call that failed: how many tries are left, none where it would fail again.
fn wait<R: Clock>(rt: &R, tries: u64, error: &io::Error) -> u64
    requires { 0 < tries }
    ensures { result < tries }
{
    if !is_early(error) {
        return 0;
    }
    let nap = if TRIES - tries < SOON {
        Duration::ZERO
    } else {
        Duration::from_millis(NAP)
    };
    thread::sleep(rt, nap);
    tries - 1
}

// The system's words for an error, without its number, which follows them.
fn without_number(words: &str) -> &str {
    match words.split_once(" (os error ") {
        Some((why, _)) => why,
        None => words,
    }
}

// A line on standard error: the program, what it could not do, and why. Where this fails too, nothing
// is told.
fn tell<R: Eprint + Alloc>(rt: &R, program: &[u8], what: &str, error: &io::Error) {
    let told = match error.to_string(rt.alloc()) {
        Ok(words) => {
            eprintln!(rt;
                "{}: {what}: {}",
                Shown(program),
                without_number(words.as_str())
            )
        }
        Err(_) => eprintln!(rt; "{}: {what}: {}", Shown(program), error.kind()),
    };
    let _ = told;
}

// How many of the bytes the output took, none where it failed, which is told.
fn write_some<R: Eprint + Alloc + Clock, W: io::Write>(
    rt: &R,
    output: &mut W,
    program: &[u8],
    bytes: &[u8],
) -> usize
    ensures bound { result ≤ length bytes.now }
    ensures written { Appends (W.contents output.old) (W.contents output.new) (take result bytes.now) }
{
    let mut tries = TRIES;
    while tries > 0 {
        match output.write(bytes) {
            Ok(n) if n > 0 => return n,
            Ok(_) => {
                tell(
                    rt,
                    program,
                    "cannot write",
                    &io::Error::from(io::ErrorKind::WriteZero),
                );
                return 0;
            }
            Err(error) => {
                tries = wait(rt, tries, &error);
                if tries == 0 {
                    tell(rt, program, "cannot write", &error);
                }
            }
        }
    }
    0
}

// Writes all of the bytes; false where the output failed, which is told.
pub fn write_all<R: Eprint + Alloc + Clock, W: io::Write>(
    rt: &R,
    output: &mut W,
    program: &[u8],
    bytes: &[u8],
) -> bool
    ensures { result ≡ true → Appends (W.contents output.old) (W.contents output.new) bytes.now }
{
    let mut from: usize = 0;
    while from < bytes.len() {
        let n = write_some(rt, output, program, &bytes[from..]);
        if n == 0 {
            return false;
        }
        from += n;
    }
    true
}

// Writes the first so many bytes of a buffer, as many as it has; false where the output failed,
// which is told.
pub fn write_first<R: Eprint + Alloc + Clock, W: io::Write>(
    rt: &R,
    output: &mut W,
    program: &[u8],
    n: usize,
    buffer: &[u8],
) -> bool
    ensures { result ≡ true → Appends (W.contents output.old) (W.contents output.new) (take n buffer.now) }
{
    if n < buffer.len() {
        return write_all(rt, output, program, &buffer[..n]);
    }
    write_all(rt, output, program, buffer)
}

// The next bytes of the input, as many as there are; a failure is told.
pub fn read_block<R: Eprint + Alloc + Clock, I: io::Read>(
    rt: &R,
    input: &mut I,
    program: &[u8],
    block: &mut [u8],
) -> Read
    ensures bound { result.length ≤ length block.new }
    ensures none_where_failed { result.failed ≡ true → result.length ≡ 0 }
    ensures bytes { Consumes (I.remaining input.old) (I.remaining input.new) (take result.length block.new) }
    ensures end { result.failed ≡ false → result.length ≡ 0 → 0 < length block.new → IsAtEnd (I.remaining input.new) }
{
    let mut tries = TRIES;
    while tries > 0 {
        match input.read(block) {
            Ok(length) => {
                let failed = false;
                return Read { length, failed };
            }
            Err(error) => {
                tries = wait(rt, tries, &error);
                if tries == 0 {
                    tell(rt, program, "cannot read", &error);
                }
            }
        }
    }
    Read {
        length: 0,
        failed: true,
    }
}

// A proved loop ends, and nothing says that the input does. So a program that reads up to
// the end counts its turns down, from a number that no run uses up.
pub fn most_turns() -> u64
    ensures { result ≡ 18446744073709551615 }
{
    u64::MAX
}

// The whole input, up to the buffer's length; a failure is told.
pub fn read_all<R: Eprint + Alloc + Clock, I: io::Read>(
    rt: &R,
    input: &mut I,
    program: &[u8],
    buffer: &mut [u8],
) -> Input
    ensures bound { Whole result buffer.new }
    ensures bytes { Brings result buffer.new (I.remaining input.old) (I.remaining input.new) }
{
    let mut n: usize = 0;
    while n < buffer.len() {
        let read = read_block(rt, input, program, &mut buffer[n..]);
        if read.failed {
            return Input::Failed;
        }
        if read.length == 0 {
            return Input::Bytes(n);
        }
        n += read.length;
    }
    Input::Bytes(n)
}

// Whether the program was given arguments, which is told by the line `usage`: it takes none.
pub fn has_arguments<R: Env + Eprint>(rt: &R, usage: &[u8]) -> bool {
    let mut first = [0u8; 1];
    if let Err(FillError::NotPresent) = rt.arg(1, &mut first) {
        return false;
    }
    let _ = eprint!(rt; "{}", Shown(usage));
    true
}

#[cfg(test)]
mod tests {
    use super::*;
    use std::io::{Error, ErrorKind};
    use std::test::Fail;

    // A stream that is interrupted at every other call, and else moves a byte; past so many bytes
    // each call fails.
    #[derive(Drop)]
    struct Halting {
        bytes: [u8; 6],
        at: usize,
        whole: usize,
        is_late: bool,
    }

    fn make_halting(bytes: [u8; 6], whole: usize) -> Halting {
        Halting {
            bytes,
            at: 0,
            whole,
            is_late: false,
        }
    }

    impl Halting {
        fn turn(&mut self) -> io::Result<()> {
            self.is_late = !self.is_late;
            if self.is_late {
                return Err(Error::from(ErrorKind::Interrupted));
            }
            if self.whole <= self.at {
                return Err(Error::from(ErrorKind::BrokenPipe));
            }
            Ok(())
        }
    }

    impl io::Read for Halting {
        fn read(&mut self, buf: &mut [u8]) -> io::Result<usize> {
            self.turn()?;
            if buf.is_empty() || self.bytes.len() <= self.at {
                return Ok(0);
            }
            buf[0] = self.bytes[self.at];
            self.at += 1;
            Ok(1)
        }
    }

    impl io::Write for Halting {
        fn write(&mut self, buf: &[u8]) -> io::Result<usize> {
            self.turn()?;
            if buf.is_empty() || self.bytes.len() <= self.at {
                return Ok(0);
            }
            self.bytes[self.at] = buf[0];
            self.at += 1;
            Ok(1)
        }

        fn flush(&mut self) -> io::Result<()> {
            Ok(())
        }
    }

    #[test]
    fn reads_all(rt: HostRuntime) -> Result<(), Fail> {
        let mut buffer = [0u8; 5];
        let read = read_all(&rt, &mut make_halting(*b"abcdef", 6), b"test", &mut buffer);
        assert!(rt; matches!(read, Input::Bytes(5)));
        assert_eq!(rt; buffer.as_slice(), b"abcde".as_slice());
        Ok(())
    }

    #[test]
    fn reads_to_a_failure(rt: HostRuntime) -> Result<(), Fail> {
        let mut buffer = [0u8; 5];
        let read = read_all(&rt, &mut make_halting(*b"abcdef", 3), b"test", &mut buffer);
        assert!(rt; matches!(read, Input::Failed));
        Ok(())
    }

    #[test]
    fn writes_all(rt: HostRuntime) -> Result<(), Fail> {
        let mut output = make_halting([0; 6], 6);
        assert!(rt; write_first(&rt, &mut output, b"test", 5, b"abcdef"));
        assert_eq!(rt; output.bytes.as_slice(), b"abcde\0".as_slice());
        Ok(())
    }

    #[test]
    fn writes_to_a_failure(rt: HostRuntime) -> Result<(), Fail> {
        let mut output = make_halting([0; 6], 3);
        assert!(rt; !write_all(&rt, &mut output, b"test", b"abcdef"));
        assert_eq!(rt; output.bytes.as_slice(), b"abc\0\0\0".as_slice());
        Ok(())
    }
}
