// Draws the rule in a file as Graphviz text into a lent buffer.
#![tactic(auto)]

ghost use Rattle.std.specs.Prelude.{◌≤◌, length};
ghost use Rattle.dotgraph.specs.DotText.{most_bytes};
ghost use Rattle.dottext.specs.Answers.{Draws};

use base::Refusal;

// Draws the rule in a file into a buffer that has room for any drawing: how many bytes it has. Where
// the reader refuses the file nothing is drawn.
pub fn print_whole(file: &[u8], out: &mut [u8]) -> Result<usize, Refusal>
    requires { most_bytes ≤ length out.old }
    ensures { Draws file.now out.old out.new result }
{
    let rule = rulefile::read(file)?;
    Ok(dotgraph::put_dot(out, rule))
}
