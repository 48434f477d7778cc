// What a delivery comes to once its place and its length are known: the text of the chunk is
// checked and run. It is given the tables of the rule, and copies none.
#![tactic(auto)]

ghost use Rattle.std.specs.Prelude.{◌≡◌, ◌≤◌, length};
ghost use Rattle.limits.specs.Limits.{longest_chunk};
ghost use Rattle.marks.specs.Marks.{text_of};
ghost use Rattle.deliveries.specs.mirror.Attempts.{attempt_means, attempt_of};

use base::Refusal;
use chunks::Runs;

// A text, run from the states of the mask, where each of its bytes is below k and its revision does
// not come late.
fn run_text<'a>(
    sets: &'a [u32; limits::SETS],
    next: &'a [u16; limits::CELLS],
    singles: &'a [u16; limits::STATES],
    mask: u32,
    k: u8,
    late: bool,
    text: &[u8],
) -> Result<Runs, Refusal>
    requires { length text.now ≤ longest_chunk }
    ensures { attempt_means result ≡ attempt_of sets.now next.now singles.now mask k late text.now }
{
    if chunks::has_foreign(text, k) {
        return Err(Refusal::ForeignByte);
    }
    if late {
        return Err(Refusal::NotDue);
    }
    Ok(chunks::run_chunk(sets, next, singles, mask, text))
}

// The text of a chunk with idle marks: it is packed once, and run from there.
fn run_marked<'a>(
    sets: &'a [u32; limits::SETS],
    next: &'a [u16; limits::CELLS],
    singles: &'a [u16; limits::STATES],
    mask: u32,
    k: u8,
    late: bool,
    chunk: &[u8],
) -> Result<Runs, Refusal>
    requires { length chunk.now ≤ longest_chunk }
    ensures { attempt_means result ≡ attempt_of sets.now next.now singles.now mask k late (text_of chunk.now) }
{
    let mut buffer = [0u8; limits::CHUNK];
    let n = marks::pack(chunk, &mut buffer);
    run_text(sets, next, singles, mask, k, late, &buffer[..n])
}

// The text of any chunk: one without marks is its own text.
pub fn run_delivery<'a>(
    sets: &'a [u32; limits::SETS],
    next: &'a [u16; limits::CELLS],
    singles: &'a [u16; limits::STATES],
    mask: u32,
    k: u8,
    late: bool,
    chunk: &[u8],
) -> Result<Runs, Refusal>
    requires { length chunk.now ≤ longest_chunk }
    ensures { attempt_means result ≡ attempt_of sets.now next.now singles.now mask k late (text_of chunk.now) }
{
    if marks::has_marks(chunk) {
        return run_marked(sets, next, singles, mask, k, late, chunk);
    }
    run_text(sets, next, singles, mask, k, late, chunk)
}
