// The failure form of a judge's table, and the way back, for C and Rust. The answers are numbers.
#![tactic(auto)]

ghost use Rattle.std.specs.Prelude.{◌≡◌};
ghost use Rattle.forms.specs.Back.{back_of};
ghost use Rattle.formmaker.specs.Making.{made_of};
ghost use Rattle.c_form.specs.Numbers.{form_shown, table_shown};

use calls::Judge;
use forms::{Form, Table};

// Accepted is 1 or 0; where it is 0, refused has the number, and every number of the form is 0.
#[repr(C)]
#[derive(Clone, Copy)]
pub struct FormNumbers {
    pub accepted: u8,
    pub refused: u8,
    pub form: Form,
}

// The same with a table.
#[repr(C)]
#[derive(Clone, Copy)]
pub struct TableNumbers {
    pub accepted: u8,
    pub refused: u8,
    pub table: Table,
}

// The failure form of the judge's next-set table; 20 without a rule.
pub fn bellbadger_form(judge: Judge) -> FormNumbers
    ensures { result ≡ form_shown (made_of judge) }
{
    let made = formmaker::make_form(judge);
    let shown = flags::shown(&made);
    match made {
        Ok(form) => FormNumbers {
            accepted: shown.accepted,
            refused: shown.refused,
            form,
        },
        Err(_) => {
            let form = formmaker::no_form();
            FormNumbers {
                accepted: shown.accepted,
                refused: shown.refused,
                form,
            }
        }
    }
}

// The table of a form, whatever numbers stand in it; 40 where it is none.
pub fn bellbadger_form_back(form: Form) -> TableNumbers
    ensures { result ≡ table_shown (back_of form) }
{
    let back = formback::table_of(form);
    let shown = flags::shown(&back);
    match back {
        Ok(table) => TableNumbers {
            accepted: shown.accepted,
            refused: shown.refused,
            table,
        },
        Err(_) => {
            let table = formback::no_table();
            TableNumbers {
                accepted: shown.accepted,
                refused: shown.refused,
                table,
            }
        }
    }
}
