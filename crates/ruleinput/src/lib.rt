// Reads a rule file from standard input.
#![tactic(auto)]

ghost use Rattle.std.specs.Prelude.{◌<◌, length};
ghost use Rattle.limits.specs.Limits.{longest_file};
ghost use Rattle.stdio.specs.Blocks.{Whole, Brings};

use std::io;
use std::rt::Clock;
use stdio::Input;

// At most as many bytes as the buffer has, and those that the input has left where they are known.
// A file of 32,906 bytes may be accepted and one of 32,907 is refused, so that the buffer has to
// hold more than 32,906: in a shorter one the two could not be told apart. A failure is told, in the
// name of the program.
pub fn read_rule<R: Eprint + Alloc + Clock, I: io::Read>(
    rt: &R,
    input: &mut I,
    program: &[u8],
    file: &mut [u8],
) -> Input
    requires { longest_file < length file.old }
    ensures bound { Whole result file.new }
    ensures bytes { Brings result file.new (I.remaining input.old) (I.remaining input.new) }
{
    stdio::read_all(rt, input, program, file)
}
