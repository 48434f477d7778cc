// A text of lines of rulemerge that comes in blocks, cut anywhere, and its answers.
#![tactic(auto)]

ghost use Rattle.std.specs.Prelude.{◌≤◌, ◌<◌, length};
ghost use Rattle.limits.specs.Limits.{longest_file};
ghost use Rattle.text.specs.Writing.{Wrote};
ghost use Rattle.linetexts.specs.Feeding.{finish_of, gather_at, Gathers};
ghost use Rattle.mergetext.specs.Answers.{most_answer};
ghost use Rattle.mergestream.specs.Texts.{merge_lines, merge_state};

use mergescan::Scan;

// Room for an answer: two hex digits for each byte of a file, and a line feed.
pub const ANSWER: usize = 2 * limits::FILE + 1;

// What is kept of a line that goes on, where the next part begins, and how many bytes the answers
// have.
#[derive(Clone, Copy)]
pub struct Fed {
    pub scan: Scan,
    pub at: usize,
    pub written: usize,
}

// The parts of a block from an index on, while there is room for their answers, which stand one
// behind the other at the start of `out`. `one` and `two` are for the bytes of the two files of a
// line, each with room for one more than a file may have.
pub fn gather(
    scan: Scan,
    one: &mut [u8],
    two: &mut [u8],
    out: &mut [u8],
    block: &[u8],
    from: usize,
) -> Fed
    requires { (longest_file < length one.old) × (longest_file < length two.old) }
    ensures { Gathers (gather_at merge_lines block.now from (length out.old) (merge_state scan one.old two.old)) from (merge_state result.scan one.new two.new) result.at result.written out.old out.new }
{
    let mut scan = scan;
    let mut at = from;
    let mut written: usize = 0;
    while at < block.len() {
        if out.len() - written < ANSWER {
            break;
        }
        let part = linetexts::part_at(block, at);
        let end = part.end;
        scan = mergescan::scan_bytes(one, two, scan, &block[at..end]);
        at = part.next;
        if !part.ends {
            continue;
        }
        written = mergescan::put_answer(scan, one, two, out, written);
        scan = Scan::Start;
    }
    Fed { scan, at, written }
}

// The end of the text: a last line that is not empty is answered.
pub fn finish(scan: Scan, one: &[u8], two: &[u8], out: &mut [u8]) -> usize
    requires { (longest_file < length one.now) × (longest_file < length two.now) × (most_answer ≤ length out.old) }
    ensures { Wrote out.old 0 (finish_of merge_lines (merge_state scan one.now two.now)).text out.new result }
{
    if mergescan::is_start(scan) {
        return 0;
    }
    mergescan::put_answer(scan, one, two, out, 0)
}
