// Turns failure forms into tables: each line of standard input is a form, `SETS SYMBOLS FAILURE
// MASKS CELLS`, and is answered by one line, the cells of its table, `refused` with the number, or
// `malformed`. What a line means and how it is answered is proved in the crates below; this program
// only reads and writes. The answers to a block that was read are written before the next is read.
// Where it cannot read or write it says so on standard error and stops. What it prints is no
// promise, since nothing is known of what the system writes: a test holds it.
#![tactic(auto)]

ghost use Rattle.std.specs.Prelude.{◌≡◌, false, ◌≤◌, length, take};
ghost use Rattle.linetexts.specs.Parts.{parts_of};
ghost use Rattle.linetexts.specs.Feeding.{feed_parts};
ghost use Rattle.linetexts.specs.Alone.{line_state};
ghost use Rattle.formstream.specs.Texts.{form_lines};

use longlines::Held;
use std::io;
use stdio::Streams;

// How many bytes are read at once.
const BLOCK: usize = 65536;

// Room for the answers to a block, if they are not the longest: they are written where it is used up.
const ANSWERS: usize = 8 * formstream::ANSWER;

// What is held of a line, and whether the input is over, or it or the output failed, which was told.
#[derive(Clone, Copy)]
struct Reading {
    held: Held,
    over: bool,
}

fn write_answers<R: Streams>(rt: &R, out: &[u8], written: usize) -> bool {
    stdio::write_first(rt, &mut io::writer(rt), b"formtable", written, out)
}

// The lines of the first n bytes of a block. `line` keeps a line that goes on.
fn run_block<R: Streams>(
    rt: &R,
    held: Held,
    line: &mut [u8; formstream::LINE],
    out: &mut [u8; ANSWERS],
    block: &[u8],
    n: usize,
) -> Reading
    requires { n ≤ length block.now }
    ensures { result.over ≡ false → line_state result.held line.new ≡ feed_parts form_lines (line_state held line.old) (parts_of (take n block.now)) }
{
    let mut held = held;
    let mut at: usize = 0;
    while at < n {
        let round = formstream::gather(held, line, out, &block[..n], at);
        held = round.held;
        at = round.at;
        let written = round.written;
        if !write_answers(rt, out, written) {
            let over = true;
            return Reading { held, over };
        }
    }
    let over = false;
    Reading { held, over }
}

// A block is read and its lines are answered; at the end of the input, a last line.
fn turn<R: Streams>(
    rt: &R,
    held: Held,
    line: &mut [u8; formstream::LINE],
    out: &mut [u8; ANSWERS],
    block: &mut [u8; BLOCK],
) -> Reading {
    let read = stdio::read_block(rt, &mut rt.reader(), b"formtable", block);
    let n = read.length;
    if 0 < n {
        return run_block(rt, held, line, out, block, n);
    }
    if !read.failed {
        let written = formstream::finish(held, line, out);
        write_answers(rt, out, written);
    }
    let over = true;
    Reading { held, over }
}

fn run<R: Streams>(
    rt: &R,
    line: &mut [u8; formstream::LINE],
    out: &mut [u8; ANSWERS],
    block: &mut [u8; BLOCK],
) {
    let mut held = longlines::nothing();
    for _ in 0..stdio::most_turns() {
        let reading = turn(rt, held, line, out, block);
        if reading.over {
            return;
        }
        held = reading.held;
    }
}

fn main(rt: HostRuntime) {
    if stdio::has_arguments(
        &rt,
        b"usage: formtable < LINES   (takes no arguments; see docs/PROGRAMS.md)\n",
    ) {
        return;
    }
    let mut line = [0u8; formstream::LINE];
    let mut out = [0u8; ANSWERS];
    let mut block = [0u8; BLOCK];
    run(&rt, &mut line, &mut out, &mut block);
}
