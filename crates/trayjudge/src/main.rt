// A tray on standard input and output, a line for each call and an answer a line: `row HEX` and
// `column HEX` (rule files), `open W N`, `deliver B HEX`, `withdraw B`, `verdict`. HEX is `-` for
// no bytes. An empty line begins with a fresh tray; a malformed line ends its list, and up to an
// empty line nothing is run. What a line means and how it is answered is proved in the crates
// below; this program only reads and writes. The answers to a block that was read are written
// before the next is read, all at once where their buffer holds them. Where it cannot read or write
// it says so on standard error and stops. What it prints is no promise, since nothing is known of
// what the system writes: a test holds it.
#![tactic(auto)]

ghost use Rattle.std.specs.Prelude.{◌≡◌, false, ◌≤◌, length, take};
ghost use Rattle.linetexts.specs.Parts.{parts_of};
ghost use Rattle.linetexts.specs.Feeding.{feed_parts};
ghost use Rattle.linetexts.specs.Lists.{text_state};
ghost use Rattle.traystream.specs.Texts.{tray_lines};

use linetexts::Pending;
use std::io;
use stdio::Streams;
use trays::Tray;

// How many bytes are read at once.
const BLOCK: usize = 65536;

// Room for the answers to a block. A line of one byte, with its line feed, is answered with ten, and
// no line with more than five for each of its bytes.
const ANSWERS: usize = 6 * BLOCK;

// The tray, what is left between blocks, and whether the input is over, or it or the output failed,
// which was told.
#[derive(Clone, Copy)]
struct Reading {
    tray: Tray,
    pending: Pending,
    over: bool,
}

fn write_answers<R: Streams>(rt: &R, out: &[u8], written: usize) -> bool {
    stdio::write_first(rt, &mut io::writer(rt), b"trayjudge", written, out)
}

// The lines of the first n bytes of a block. `line` keeps a line that goes on.
fn run_block<R: Streams>(
    rt: &R,
    tray: Tray,
    pending: Pending,
    line: &mut [u8; traystream::LINE],
    bytes: &mut [u8; traylines::BYTES],
    out: &mut [u8; ANSWERS],
    block: &[u8],
    n: usize,
) -> Reading
    requires { n ≤ length block.now }
    ensures { result.over ≡ false → text_state result.tray result.pending line.new ≡ feed_parts tray_lines (text_state tray pending line.old) (parts_of (take n block.now)) }
{
    let mut tray = tray;
    let mut pending = pending;
    let mut at: usize = 0;
    while at < n {
        let round = traystream::gather(tray, pending, line, bytes, out, &block[..n], at);
        tray = round.tray;
        pending = round.pending;
        at = round.at;
        let written = round.written;
        if !write_answers(rt, out, written) {
            let over = true;
            return Reading {
                tray,
                pending,
                over,
            };
        }
    }
    let over = false;
    Reading {
        tray,
        pending,
        over,
    }
}

// A block is read and its lines are answered; at the end of the input, a last line.
fn turn<R: Streams>(
    rt: &R,
    tray: Tray,
    pending: Pending,
    line: &mut [u8; traystream::LINE],
    bytes: &mut [u8; traylines::BYTES],
    out: &mut [u8; ANSWERS],
    block: &mut [u8; BLOCK],
) -> Reading {
    let read = stdio::read_block(rt, &mut rt.reader(), b"trayjudge", block);
    let n = read.length;
    if 0 < n {
        return run_block(rt, tray, pending, line, bytes, out, block, n);
    }
    if !read.failed {
        let written = traystream::finish(tray, pending, line, bytes, out);
        write_answers(rt, out, written);
    }
    let over = true;
    Reading {
        tray,
        pending,
        over,
    }
}

fn run<R: Streams>(
    rt: &R,
    line: &mut [u8; traystream::LINE],
    bytes: &mut [u8; traylines::BYTES],
    out: &mut [u8; ANSWERS],
    block: &mut [u8; BLOCK],
) {
    let mut tray = traycalls::new_tray();
    let mut pending = linetexts::nothing_yet();
    for _ in 0..stdio::most_turns() {
        let reading = turn(rt, tray, pending, line, bytes, out, block);
        if reading.over {
            return;
        }
        tray = reading.tray;
        pending = reading.pending;
    }
}

fn main(rt: HostRuntime) {
    if stdio::has_arguments(
        &rt,
        b"usage: trayjudge < CALLS   (takes no arguments; see docs/PROGRAMS.md)\n",
    ) {
        return;
    }
    let mut line = [0u8; traystream::LINE];
    let mut bytes = [0u8; traylines::BYTES];
    let mut out = [0u8; ANSWERS];
    let mut block = [0u8; BLOCK];
    run(&rt, &mut line, &mut bytes, &mut out, &mut block);
}
