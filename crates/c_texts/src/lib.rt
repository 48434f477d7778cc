// Making test texts for C, Rust and Python. The answer is numbers.
#![tactic(auto)]

ghost use Rattle.c_texts.specs.Numbers.{MakesShown};

// Accepted is 1 or 0; where it is 0, refused has the number.
#[repr(C)]
#[derive(Clone, Copy)]
pub struct MadeNumbers {
    pub accepted: u8,
    pub refused: u8,
}

// The made text of k symbols fills the buffer; where it is refused, the buffer stays as it is.
pub fn bellbadger_make_text(k: usize, seed: u64, text: &mut [u8]) -> MadeNumbers
    ensures { MakesShown k seed text.old result text.new }
{
    let shown = flags::shown(&madetexts::make_text(k, seed, text));
    MadeNumbers {
        accepted: shown.accepted,
        refused: shown.refused,
    }
}
