// The release of a cancelled call in the call table and the tally rows that the caller lends.
ghost use Rattle.std.specs.Prelude.{◌≡◌};
ghost use Rattle.receiver.specs.Release.{release_in};
ghost use Rattle.receiver.specs.Told.{told_done};
ghost use Rattle.calls.specs.Counting.{no_tally};
ghost use Rattle.cells.specs.Cells.{stored};
ghost use Rattle.cells.specs.Records.{calls_of, CountsOpen, row_cells};
ghost use Rattle.exports.specs.Answers.{releasing, call_cells, released_cells, RefusedCells};

use crate::planning::plan_release;
use crate::settling::{keep, place_in, row_after};
use cells::rows::{TALLY_CELLS, put_row, row_in};
use cells::store;
use constants::refusal::Refusal;
use receiver::planning::row_of;
use receiver::settling::settle_call;
use receiver::{Done, Halt};

// Judges a release up to the call table, which stays as it is. `calls` is how many are open in it.
fn judge(
    table: &[u64],
    schema: &[u8],
    correlation: u64,
    tallies: &mut [u32],
    calls: &mut usize,
) -> Result<Done<Refusal>, Halt>
    ensures table_value { (release_in (told_done no_tally result) (calls_of table.now)).answer ≡ (releasing table.now schema.now correlation tallies.old).answer }
    ensures tallies_after { tallies.new ≡ row_cells tallies.old (releasing table.now schema.now correlation tallies.old).tallies }
    ensures counts_open { CountsOpen table.now calls.new × RefusedCells table.now (told_done no_tally result).judged }
{
    let plan = plan_release(
        table,
        schema,
        correlation,
        tallies.len() / TALLY_CELLS,
        calls,
    );
    let row = row_of(&plan);
    let old = row_in(tallies, row);
    let done = settle_call(plan, old);
    put_row(tallies, row, row_after(&done, old));
    done
}

// Ends the cancelled call with this correlation. table: 128 records of three cells, before and after; with fewer cells, or a cell with more bits than
// a record's number, it is refused with 15. tallies: five cells a method, before and after. answer: place, calls open.
pub fn arf_release(
    table: &mut [u64],
    schema: &[u8],
    correlation: u64,
    tallies: &mut [u32],
    answer: &mut [u64],
) -> u32
    ensures value { result ≡ (releasing table.old schema.now correlation tallies.old).answer.number }
    ensures table_after { table.new ≡ call_cells table.old (releasing table.old schema.now correlation tallies.old).answer.table.slots }
    ensures tallies_after { tallies.new ≡ row_cells tallies.old (releasing table.old schema.now correlation tallies.old).tallies }
    ensures answer_after { answer.new ≡ stored answer.old (released_cells (releasing table.old schema.now correlation tallies.old).answer) }
{
    let mut calls: usize = 0;
    let done = judge(table, schema, correlation, tallies, &mut calls);
    let kept = keep(table, calls, &done);
    store(answer, &[place_in(&done), kept.open as u64]);
    kept.number
}
