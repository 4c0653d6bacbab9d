// Cases of the events of a line, frames and releases: from the fresh call table, and one on any call table.
ghost use Rattle.std.specs.Prelude.{◌≤◌};

use crate::stop::Stop;
use crate::tables::MOST;
use crate::{blank, input, output, sums};
use calls::Call;
use cells::rows::{TALLY_CELLS, put_row, row_in};
use connection::CallTable;
use constants::limit;
use receiver::planning::{plan, plan_release, row_of};
use receiver::settling::{settle, settle_release};
use std::io::{Read, Write};
use table::good::Schema;

// The most events of a run or a history.
const EVENTS: u32 = 1000;

// The cells of the most tally rows, five each.
pub const TALLIES: usize = 10500;

// The next call table, the sheet's sum (0 for a release), and that of the tally rows.
#[derive(Clone, Copy)]
struct Next {
    table: CallTable,
    sum: u64,
    tally_sum: u64,
}

// Code 8: a table, the number of the sheet's cells, and frames with their sides. A line for each has number, place, bytes used, rows, the tail's place
// and length, calls open, key comparisons, the sheet's sum, and that of the tally rows.
pub fn run(from: &mut impl Read, to: &mut impl Write) -> Result<(), Stop> {
    run_case(false, from, to)
}

// Code 11: the same with releases. A byte before each event says which it is: 0 a frame, 1 a release. A release's line has number, place,
// calls open, and the sum of the tally rows.
pub fn history(from: &mut impl Read, to: &mut impl Write) -> Result<(), Stop> {
    run_case(true, from, to)
}

// As many fresh tally rows as the schema has methods; none where it is not good.
fn fresh_rows(schema: &[u8]) -> usize
    ensures { result ≤ 256 }
{
    match Schema::check(schema) {
        Ok(schema) => schema.method_count(),
        Err(_) => 0,
    }
}

fn run_case(marked: bool, from: &mut impl Read, to: &mut impl Write) -> Result<(), Stop> {
    let mut schema = blank::bytes();
    let mut tallies = blank::tallies();
    let n = input::bytes(from, &mut schema)?;
    let cells = input::word(from)? as usize;
    let events = input::word(from)?;
    if MOST < cells || EVENTS < events {
        return Err(Stop::Cut);
    }
    let rows = fresh_rows(&schema[..n]);
    let m = input::within(&tallies, TALLY_CELLS * rows)?;
    run_events(
        &schema[..n],
        cells,
        events,
        marked,
        &mut tallies[..m],
        from,
        to,
    )
}

fn run_events(
    schema: &[u8],
    cells: usize,
    events: u32,
    marked: bool,
    tallies: &mut [u32],
    from: &mut impl Read,
    to: &mut impl Write,
) -> Result<(), Stop> {
    let mut table = arf::fresh();
    for _ in 0..events {
        table = run_event(table, schema, cells, marked, tallies, from, to)?;
    }
    Ok(())
}

// The next event of the file.
fn run_event(
    table: CallTable,
    schema: &[u8],
    cells: usize,
    marked: bool,
    tallies: &mut [u32],
    from: &mut impl Read,
    to: &mut impl Write,
) -> Result<CallTable, Stop> {
    let sort = if marked { input::byte(from)? } else { 0 };
    match sort {
        0 => run_frame(table, schema, cells, tallies, from, to),
        1 => run_release(table, schema, tallies, from, to),
        _ => Err(Stop::Cut),
    }
}

fn run_release(
    table: CallTable,
    schema: &[u8],
    tallies: &mut [u32],
    from: &mut impl Read,
    to: &mut impl Write,
) -> Result<CallTable, Stop> {
    let correlation = input::long(from)?;
    let next = released(table, schema, correlation, tallies, to)?;
    output::last(to, next.tally_sum)?;
    Ok(next.table)
}

// Prints all but the sums. The tally rows stand in cells, as the entry for other languages has them; the plan and its settling are those of `arf::release`.
fn released(
    table: CallTable,
    schema: &[u8],
    correlation: u64,
    tallies: &mut [u32],
    to: &mut impl Write,
) -> Result<Next, Stop> {
    let plan = plan_release(table, schema, correlation, tallies.len() / TALLY_CELLS);
    let row = row_of(&plan);
    let next = settle_release(table, plan, row_in(tallies, row));
    put_row(tallies, row, next.row);
    let r = next.answer;
    output::numbers(to, &[u64::from(r.number()), r.place as u64, r.open as u64])?;
    Ok(Next {
        table: r.table,
        sum: 0,
        tally_sum: sums::of_cells(tallies),
    })
}

fn run_frame(
    table: CallTable,
    schema: &[u8],
    cells: usize,
    tallies: &mut [u32],
    from: &mut impl Read,
    to: &mut impl Write,
) -> Result<CallTable, Stop> {
    let mut data = blank::bytes();
    let mut sheet = blank::cells();
    let side = input::byte(from)?;
    let n = input::bytes(from, &mut data)?;
    let room = input::within(&sheet, cells)?;
    let next = answer(
        table,
        schema,
        side,
        &data[..n],
        &mut sheet[..room],
        tallies,
        to,
    )?;
    output::numbers(to, &[next.sum])?;
    output::last(to, next.tally_sum)?;
    Ok(next.table)
}

// Prints all but the sums, likewise by the plan and the settling of `arf::receive`.
fn answer(
    table: CallTable,
    schema: &[u8],
    side: u8,
    data: &[u8],
    sheet: &mut [u32],
    tallies: &mut [u32],
    to: &mut impl Write,
) -> Result<Next, Stop> {
    let plan = plan(table, schema, side, data, tallies.len() / TALLY_CELLS);
    let row = row_of(&plan);
    let next = settle(table, plan, schema, data, sheet, row_in(tallies, row));
    put_row(tallies, row, next.row);
    let r = next.answer;
    let numbers = [
        u64::from(r.number()),
        r.place as u64,
        r.used as u64,
        r.rows as u64,
        r.tail_place as u64,
        r.tail_length as u64,
        r.open as u64,
        r.comparisons as u64,
    ];
    output::numbers(to, &numbers)?;
    Ok(Next {
        table: r.table,
        sum: sums::of_cells(sheet),
        tally_sum: sums::of_cells(tallies),
    })
}

// Code 9: a table, the number of the sheet's cells, a call table, tally rows, a side and a frame. The line is a run's with the next call table's sum
// before that of the tally rows.
pub fn receive(from: &mut impl Read, to: &mut impl Write) -> Result<(), Stop> {
    let mut schema = blank::bytes();
    let mut data = blank::bytes();
    let mut sheet = blank::cells();
    let mut tallies = blank::tallies();
    let n = input::bytes(from, &mut schema)?;
    let cells = input::cells(from, &sheet)?;
    let table = read_table(from)?;
    let k = input::rows(from, &mut tallies)?;
    let side = input::byte(from)?;
    let m = input::bytes(from, &mut data)?;
    let next = answer(
        table,
        &schema[..n],
        side,
        &data[..m],
        &mut sheet[..cells],
        &mut tallies[..k],
        to,
    )?;
    output::numbers(to, &[next.sum, sums::of_calls(next.table)])?;
    output::last(to, next.tally_sum)?;
    Ok(())
}

// Code 10: a table, a call table, tally rows and a correlation. The line has number, place, calls open, the next call table's sum and that of the rows.
pub fn release(from: &mut impl Read, to: &mut impl Write) -> Result<(), Stop> {
    let mut schema = blank::bytes();
    let mut tallies = blank::tallies();
    let n = input::bytes(from, &mut schema)?;
    let table = read_table(from)?;
    let k = input::rows(from, &mut tallies)?;
    let correlation = input::long(from)?;
    let next = released(table, &schema[..n], correlation, &mut tallies[..k], to)?;
    output::numbers(to, &[sums::of_calls(next.table)])?;
    output::last(to, next.tally_sum)?;
    Ok(())
}

fn read_table(from: &mut impl Read) -> Result<CallTable, Stop> {
    let mut table = arf::fresh();
    for i in 0..limit::CALLS {
        table = table.with_slot(i, read_call(from)?);
    }
    Ok(table)
}

fn read_call(from: &mut impl Read) -> Result<Call, Stop> {
    let open = read_mark(from)?;
    let correlation = input::long(from)?;
    let method = input::word(from)?;
    let responded = read_mark(from)?;
    let input_closed = read_mark(from)?;
    let output_closed = read_mark(from)?;
    let cancelled = read_mark(from)?;
    let input_elements = input::short(from)?;
    let output_elements = input::short(from)?;
    Ok(Call {
        correlation,
        method,
        open,
        responded,
        input_closed,
        output_closed,
        cancelled,
        input_elements,
        output_elements,
    })
}

fn read_mark(from: &mut impl Read) -> Result<bool, Stop> {
    Ok(input::byte(from)? != 0)
}
