// The table of the forms (docs/FORMAT.md), one row a form. Its letters stand as the pages print them: members with names would hide the columns.
ghost use Rattle.std.specs.Prelude.{◌≡◌};
ghost use Rattle.calls.specs.Forms.{table_one, row_of_form};

use calls::FormRow;
use constants::limit;

// A row for each form.
pub const ROWS: usize = limit::FORMS as usize;

const Y: bool = true;

const N: bool = false;

pub const TABLE_1: [FormRow; ROWS] = [
    FormRow(N, N, N, N), // NNNN
    FormRow(N, N, Y, Y), // NNNY
    FormRow(Y, Y, N, N), // NNYN
    FormRow(Y, Y, Y, Y), // NNYY
    FormRow(N, N, N, N), // NYNN
    FormRow(N, N, Y, Y), // NYNY
    FormRow(Y, Y, N, N), // NYYN
    FormRow(Y, Y, Y, Y), // NYYY
    FormRow(N, N, N, N), // YNNN
    FormRow(N, N, Y, Y), // YNNY
    FormRow(Y, Y, N, N), // YNYN
    FormRow(Y, Y, Y, Y), // YNYY
    FormRow(N, N, N, N), // YYNN
    FormRow(N, N, Y, Y), // YYNY
    FormRow(Y, Y, N, N), // YYYN
    FormRow(Y, Y, Y, Y), // YYYY
];

// The row of a form in that table; there is none past 15, and nothing is allowed then. The table is a parameter, so that a loop lays it out once.
#[tactic(auto, unfolding(calls::specs::Forms::row_of_form))]
pub fn row_in(table: &[FormRow; ROWS], form: u32) -> FormRow
    requires { table.now ≡ table_one }
    ensures { result ≡ row_of_form form }
{
    if form < limit::FORMS {
        table[form as usize]
    } else {
        FormRow(N, N, N, N)
    }
}

pub fn row_of(form: u32) -> FormRow
    ensures { result ≡ row_of_form form }
{
    row_in(&TABLE_1, form)
}
