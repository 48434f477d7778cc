// The failure form of the rule in a file.
#![tactic(auto)]

ghost use Rattle.std.specs.Prelude.{◌≡◌};
ghost use Rattle.formmaker.specs.Making.{made_outcome};
ghost use Rattle.formfile.specs.Files.{form_for};

use base::Refusal;
use forms::Form;

// Loads a rule file into a fresh judge and makes the form of its table.
pub fn form_in(file: &[u8]) -> Result<Form, Refusal>
    ensures { made_outcome result ≡ form_for file.now }
{
    let loaded = judge::load(judge::new_judge(), file);
    loaded.answer?;
    formmaker::make_form(loaded.judge)
}
