// The failure form of a judge's table, and the way back, for C: the functions of the library c_form.
ghost use Rattle.std.specs.Prelude.{◌≡◌};
ghost use Rattle.forms.specs.Back.{back_of};
ghost use Rattle.formmaker.specs.Making.{made_of};
ghost use Rattle.c_form.specs.Numbers.{form_shown, table_shown};

use c_form::{FormNumbers, TableNumbers};
use calls::Judge;
use forms::Form;

// The failure form of the judge's next-set table; 20 without a rule.
#[unsafe(no_mangle)]
pub extern "C" fn bellbadger_form(judge: Judge) -> FormNumbers
    ensures { result ≡ form_shown (made_of judge) }
{
    c_form::bellbadger_form(judge)
}

// The table of a form, whatever numbers stand in it; 40 where it is none.
#[unsafe(no_mangle)]
pub extern "C" fn bellbadger_form_back(form: Form) -> TableNumbers
    ensures { result ≡ table_shown (back_of form) }
{
    c_form::bellbadger_form_back(form)
}
