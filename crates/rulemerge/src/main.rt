// Rule files made one, compared and reduced: each line of standard input is `both HEX HEX`, `either
// HEX HEX`, `interleaving HEX HEX`, `compare HEX HEX` or `reduce HEX`, and is answered by one line,
// the file of the rule that is made, `apart` with a rule and a text, `same`, `refused` with a
// number, or `malformed`. What a line means and how it is answered is proved in the crates below;
// this program only reads and writes. The answers to a block that was read are written before the
// next is read. Where it cannot read or write it says so on standard error and stops. What it
// prints is no promise, since nothing is known of what the system writes: a test holds it.
#![tactic(auto)]

ghost use Rattle.std.specs.Prelude.{◌≡◌, false, ◌≤◌, length, take};
ghost use Rattle.linetexts.specs.Parts.{parts_of};
ghost use Rattle.linetexts.specs.Feeding.{feed_parts};
ghost use Rattle.mergestream.specs.Texts.{merge_lines, merge_state};

use mergescan::Scan;
use std::io;
use stdio::Streams;

// How many bytes are read at once.
const BLOCK: usize = 65536;

// Room for the answers to a block, if they are not the longest: they are written where it is used up.
const ANSWERS: usize = 4 * mergestream::ANSWER;

// Room for a file that is too long by a byte, so that it can be told.
const FILE: usize = limits::FILE_ROOM;

// What is kept of a line, and whether the input is over, or it or the output failed, which was told.
#[derive(Clone, Copy)]
struct Reading {
    scan: Scan,
    over: bool,
}

fn write_answers<R: Streams>(rt: &R, out: &[u8], written: usize) -> bool {
    stdio::write_first(rt, &mut io::writer(rt), b"rulemerge", written, out)
}

// The lines of the first n bytes of a block. `one` and `two` keep the files of a line that goes on.
fn run_block<R: Streams>(
    rt: &R,
    scan: Scan,
    one: &mut [u8; FILE],
    two: &mut [u8; FILE],
    out: &mut [u8; ANSWERS],
    block: &[u8],
    n: usize,
) -> Reading
    requires { n ≤ length block.now }
    ensures { result.over ≡ false → merge_state result.scan one.new two.new ≡ feed_parts merge_lines (merge_state scan one.old two.old) (parts_of (take n block.now)) }
{
    let mut scan = scan;
    let mut at: usize = 0;
    while at < n {
        let round = mergestream::gather(scan, one, two, out, &block[..n], at);
        scan = round.scan;
        at = round.at;
        let written = round.written;
        if !write_answers(rt, out, written) {
            let over = true;
            return Reading { scan, over };
        }
    }
    let over = false;
    Reading { scan, over }
}

// A block is read and its lines are answered; at the end of the input, a last line.
fn turn<R: Streams>(
    rt: &R,
    scan: Scan,
    one: &mut [u8; FILE],
    two: &mut [u8; FILE],
    out: &mut [u8; ANSWERS],
    block: &mut [u8; BLOCK],
) -> Reading {
    let read = stdio::read_block(rt, &mut rt.reader(), b"rulemerge", block);
    let n = read.length;
    if 0 < n {
        return run_block(rt, scan, one, two, out, block, n);
    }
    if !read.failed {
        let written = mergestream::finish(scan, one, two, out);
        write_answers(rt, out, written);
    }
    let over = true;
    Reading { scan, over }
}

fn run<R: Streams>(
    rt: &R,
    one: &mut [u8; FILE],
    two: &mut [u8; FILE],
    out: &mut [u8; ANSWERS],
    block: &mut [u8; BLOCK],
) {
    let mut scan = Scan::Start;
    for _ in 0..stdio::most_turns() {
        let reading = turn(rt, scan, one, two, out, block);
        if reading.over {
            return;
        }
        scan = reading.scan;
    }
}

fn main(rt: HostRuntime) {
    if stdio::has_arguments(
        &rt,
        b"usage: rulemerge < LINES   (takes no arguments; see docs/PROGRAMS.md)\n",
    ) {
        return;
    }
    let mut one = [0u8; FILE];
    let mut two = [0u8; FILE];
    let mut out = [0u8; ANSWERS];
    let mut block = [0u8; BLOCK];
    run(&rt, &mut one, &mut two, &mut out, &mut block);
}
