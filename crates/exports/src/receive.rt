// One frame against the call table and the tally rows that the caller lends.
ghost use Rattle.std.specs.Prelude.{◌≡◌};
ghost use Rattle.receiver.specs.Answer.{answer_in};
ghost use Rattle.receiver.specs.Told.{told_done};
ghost use Rattle.calls.specs.Counting.{no_tally};
ghost use Rattle.cells.specs.Cells.{stored};
ghost use Rattle.cells.specs.Records.{calls_of, CountsOpen, row_cells};
ghost use Rattle.exports.specs.Answers.{receiving, call_cells, received_cells, cells_by, RefusedCells};

use crate::planning::plan;
use crate::settling::{keep, place_in, row_after};
use cells::rows::{TALLY_CELLS, put_row, row_in};
use cells::store;
use constants::refusal::Refusal;
use receiver::payload::NOTHING;
use receiver::planning::row_of;
use receiver::settling::settle_plan;
use receiver::{Done, Halt};

// Judges the frame at the front of the bytes up to the call table, which stays as it is. `calls` is how many are open in it.
fn judge(
    table: &[u64],
    schema: &[u8],
    side: u8,
    bytes: &[u8],
    sheet: &mut [u32],
    tallies: &mut [u32],
    calls: &mut usize,
) -> Result<Done<Refusal>, Halt>
    ensures table_value { answer_in (told_done no_tally result) (calls_of table.now) ≡ (receiving table.now schema.now side bytes.now sheet.old tallies.old).answer }
    ensures sheet_after { sheet.new ≡ (receiving table.now schema.now side bytes.now sheet.old tallies.old).sheet }
    ensures tallies_after { tallies.new ≡ row_cells tallies.old (receiving table.now schema.now side bytes.now sheet.old tallies.old).tallies }
    ensures counts_open { CountsOpen table.now calls.new × RefusedCells table.now (told_done no_tally result).judged }
{
    let plan = plan(
        table,
        schema,
        side,
        bytes,
        tallies.len() / TALLY_CELLS,
        calls,
    );
    let row = row_of(&plan);
    let old = row_in(tallies, row);
    let done = settle_plan(plan, schema, bytes, sheet, old);
    put_row(tallies, row, row_after(&done, old));
    done
}

// The answer's cells by the settled plan, the bytes used and the calls open.
fn received_cells(done: &Result<Done<Refusal>, Halt>, used: usize, calls: usize) -> [u64; 7]
    ensures { result ≡ cells_by used calls (told_done no_tally done.now).reading }
{
    let place = place_in(done);
    let used = used as u64;
    let calls = calls as u64;
    let shown = match done {
        Ok(done) => done.reading.unwrap_or(NOTHING),
        Err(_) => NOTHING,
    };
    [
        place,
        used,
        shown.rows as u64,
        shown.tail_place as u64,
        shown.tail_length as u64,
        calls,
        shown.comparisons as u64,
    ]
}

// Judges the frame at the front of the bytes, from a side (the byte C or S). table: 128 records of three cells, before and after. tallies: five cells a
// method, before and after. answer: place, bytes used, rows, the tail's place and length, calls open, the key comparisons due.
pub fn arf_receive(
    table: &mut [u64],
    schema: &[u8],
    side: u8,
    bytes: &[u8],
    sheet: &mut [u32],
    tallies: &mut [u32],
    answer: &mut [u64],
) -> u32
    ensures value { result ≡ (receiving table.old schema.now side bytes.now sheet.old tallies.old).answer.number }
    ensures table_after { table.new ≡ call_cells table.old (receiving table.old schema.now side bytes.now sheet.old tallies.old).answer.table.slots }
    ensures sheet_after { sheet.new ≡ (receiving table.old schema.now side bytes.now sheet.old tallies.old).sheet }
    ensures tallies_after { tallies.new ≡ row_cells tallies.old (receiving table.old schema.now side bytes.now sheet.old tallies.old).tallies }
    ensures answer_after { answer.new ≡ stored answer.old (received_cells (receiving table.old schema.now side bytes.now sheet.old tallies.old).answer) }
{
    let mut calls: usize = 0;
    let done = judge(table, schema, side, bytes, sheet, tallies, &mut calls);
    let kept = keep(table, calls, &done);
    store(answer, &received_cells(&done, kept.used, kept.open));
    kept.number
}
