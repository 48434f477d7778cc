// Idle marks: whether a chunk has any, and its text without them.
#![tactic(auto)]

ghost use Rattle.std.specs.Prelude.{◌≡◌, ◌≤◌, length};
ghost use Rattle.text.specs.Writing.{Wrote};
ghost use Rattle.marks.specs.Marks.{marked, text_of};

// The byte that is an idle mark.
pub const IDLE: u8 = 255;

// Whether some byte of the chunk is an idle mark.
pub fn has_marks(chunk: &[u8]) -> bool
    ensures { result ≡ marked chunk.now }
{
    let mut found = false;
    for byte in chunk {
        if *byte == IDLE {
            found = true;
        }
    }
    found
}

// Puts the text of the chunk at the start of the buffer and answers its length.
pub fn pack(chunk: &[u8], text: &mut [u8]) -> usize
    requires { length chunk.now ≤ length text.old }
    ensures { Wrote text.old 0 (text_of chunk.now) text.new result }
{
    let mut n: usize = 0;
    for &b in chunk {
        if b != IDLE {
            text[n] = b;
            n += 1;
        }
    }
    n
}
