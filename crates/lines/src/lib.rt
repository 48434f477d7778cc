// Finds where the parts of a text are.
#![tactic(auto)]

ghost use Rattle.std.specs.Prelude.{◌≡◌, ◌+◌, length, drop};
ghost use Rattle.lines.specs.Splitting.{up_to, begins};

// The index of the first such byte from `from` on, or the text's length; `from` where that is past
// the end.
pub fn find(text: &[u8], from: usize, c: u8) -> usize
    ensures { result ≡ from + length (up_to c (drop from text.now)) }
{
    for i in from..text.len() {
        if text[i] == c {
            return i;
        }
    }
    from.max(text.len())
}

// Whether the text begins with the head.
pub fn begins_with(text: &[u8], head: &[u8]) -> bool
    ensures { result ≡ begins head.now text.now }
{
    if text.len() < head.len() {
        return false;
    }
    for (i, byte) in head.iter().enumerate() {
        if text[i] != *byte {
            return false;
        }
    }
    true
}
