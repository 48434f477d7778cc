// Making test texts, for C: the functions of the library c_texts.
ghost use Rattle.c_texts.specs.Numbers.{MakesShown};

use c_texts::MadeNumbers;

// The made text of k symbols fills the buffer; where it is refused, the buffer stays as it is.
#[unsafe(no_mangle)]
pub extern "C" fn bellbadger_make_text(k: usize, seed: u64, text: &mut [u8]) -> MadeNumbers
    ensures { MakesShown k seed text.old result text.new }
{
    c_texts::bellbadger_make_text(k, seed, text)
}
