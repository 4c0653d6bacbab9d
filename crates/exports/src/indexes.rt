// The index of a record, and the look-up of one call in it.
ghost use Rattle.std.specs.Prelude.{◌≡◌};
ghost use Rattle.index.specs.Index.{make_index, index_number};
ghost use Rattle.index.specs.LookUp.{look_up, find_number, find_length};
ghost use Rattle.index.specs.Told.{told_find};
ghost use Rattle.cells.specs.Cells.{stored};
ghost use Rattle.exports.specs.Answers.{index_cells, find_cells};

use crate::numbers::{length_cells, number};
use cells::store;
use constants::refusal::{ACCEPTED, Refusal};
use index::Printed;

fn find_number(a: Result<Printed, Refusal>) -> u32
    ensures { result ≡ find_number (told_find a) }
{
    match a {
        Ok(printed) => match printed.stopped {
            Some(refusal) => u32::from(refusal),
            None => ACCEPTED,
        },
        Err(refusal) => u32::from(refusal),
    }
}

fn printed_length(a: Result<Printed, Refusal>) -> u64
    ensures { result ≡ find_length (told_find a) }
{
    match a {
        Ok(printed) => printed.length as u64,
        Err(_) => 0,
    }
}

// Makes the index of a record at the start of the output. answer: place, the length of the index.
pub fn arf_make_index(schema: &[u8], record: &[u8], out: &mut [u8], answer: &mut [u64]) -> u32
    ensures value { result ≡ index_number (make_index schema.now «record».now out.old).answer }
    ensures out_after { out.new ≡ (make_index schema.now «record».now out.old).out }
    ensures answer_after { answer.new ≡ stored answer.old (index_cells (make_index schema.now «record».now out.old).answer) }
{
    let a = arf::make_index(schema, record, out);
    store(answer, &length_cells(&a));
    number(&a)
}

// Prints the rows of one call in an index at the start of the output, as text. The number is what follows `stopped` in the text (0, 65 or 66), or 52 where the
// text does not fit. answer: the text's length.
pub fn arf_look_up(
    index: &[u8],
    record: &[u8],
    correlation: u64,
    out: &mut [u8],
    answer: &mut [u64],
) -> u32
    ensures value { result ≡ find_number (look_up index.now «record».now correlation out.old).answer }
    ensures out_after { out.new ≡ (look_up index.now «record».now correlation out.old).out }
    ensures answer_after { answer.new ≡ stored answer.old (find_cells (look_up index.now «record».now correlation out.old).answer) }
{
    let a = arf::look_up(index, record, correlation, out);
    store(answer, &[printed_length(a)]);
    find_number(a)
}
