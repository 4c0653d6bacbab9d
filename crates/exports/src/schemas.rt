// The check of a schema table, and whether one table extends another.
ghost use Rattle.std.specs.Prelude.{◌≡◌};
ghost use Rattle.schema.specs.Check.{checked};
ghost use Rattle.schema.specs.Extend.{extension};
ghost use Rattle.arf.specs.Numbers.{check_number, extend_number};
ghost use Rattle.cells.specs.Cells.{stored};
ghost use Rattle.table.specs.Told.{told_extends};
ghost use Rattle.exports.specs.Answers.{check_cells, extend_cells};

use crate::numbers::{number, place};
use cells::store;
use constants::refusal::Refused;

// The verdict on a schema table. answer: place.
pub fn arf_check_table(schema: &[u8], answer: &mut [u64]) -> u32
    ensures value { result ≡ check_number (checked schema.now) }
    ensures answer_after { answer.new ≡ stored answer.old (check_cells (checked schema.now)) }
{
    let a = arf::check_table(schema);
    store(answer, &[place(&a)]);
    number(&a)
}

// The cells of an answer for C. A trait over answers with so many cells each would be longer.
fn extend_cells(a: Result<bool, Refused>) -> [u64; 2]
    ensures { result ≡ extend_cells (told_extends a) }
{
    match a {
        Ok(true) => [0, 1],
        Ok(false) => [0, 0],
        Err(refused) => [refused.place as u64, 0],
    }
}

// Whether the new table extends the old one. answer: place, 1 for yes or 0.
pub fn arf_extends(old: &[u8], new: &[u8], answer: &mut [u64]) -> u32
    ensures value { result ≡ extend_number (extension old.now new.now) }
    ensures answer_after { answer.new ≡ stored answer.old (extend_cells (extension old.now new.now)) }
{
    let a = arf::extends(old, new);
    store(answer, &extend_cells(a));
    number(&a)
}
