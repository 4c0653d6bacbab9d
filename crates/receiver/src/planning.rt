// A frame and a release judged up to the payload: which tally row they ask for, and what is left to do.
ghost use Rattle.std.specs.Prelude.{◌≡◌, ◌≤◌, ℕ};
ghost use Rattle.constants.specs.Number.{number_of};
ghost use Rattle.schema.specs.File.{table_of};
ghost use Rattle.schema.specs.Check.{IsGood};
ghost use Rattle.frame.specs.Frame.{frame_of};
ghost use Rattle.frame.specs.Told as frame;
ghost use Rattle.calls.specs.Slots.{good_table};
ghost use Rattle.calls.specs.Told.{told_number};
ghost use Rattle.receiver.specs.Planning.{frame_from, Fitted, stop_plan, tables_fault, front_of, slot_plan, call_plan, good_plan, plan_of, release_plan};
ghost use Rattle.receiver.specs.Told.{told_front, told_plan, told_plan_by, row_of, Fits};

use crate::{Placed, Plan, Settle, Whole};
use calls::{Frame, OwnSlot, Stop};
use connection::CallTable;
use connection::judge::{judge_frame, judge_release};
use connection::slots::Slots;
use connection::tallies::{release_rise, rise_of};
use constants::frame_kind::FrameKind;
use constants::refusal::Refusal;
use frame::{FrameRead, Header, read_frame};
use table::good::Schema;

// What a step sees of a frame with this header. It is no `From`: neither type is of this crate, and the side stands in no header.
fn frame_from(side: u8, h: Header) -> Frame
    requires { h.kind ≤ 8 }
    ensures { result ≡ frame_from side h }
{
    Frame {
        side,
        kind: h.kind as u8,
        package: h.package,
        service: h.service,
        method: h.method,
        correlation: h.correlation,
    }
}

// The tally row that a plan asks for; one that ends before asks for none, and has 0.
pub fn row_of(plan: &Plan) -> usize
    ensures { result ≡ row_of plan.now }
{
    match plan {
        Ok(settle) => settle.rise.row,
        Err(_) => 0,
    }
}

// A refusal of any kind, or 1, at its place: it asks for no row.
pub fn stop<E>(refusal: E, place: usize) -> Result<Settle<E>, Placed<E>>
    ensures { (number : E → ℕ) → told_plan_by number (λ e. number e.refusal) (λ e. e.place) result ≡ stop_plan (number refusal) place }
{
    Err(Placed { place, refusal })
}

// ---- for a call table by value or in cells

// 15 for a call table that is not good, 19 for another number of tally rows than of methods.
pub fn judge_tables(good: bool, schema: &Schema, rows: usize) -> Result<(), Refusal>
    ensures { told_number number_of result ≡ tables_fault good rows (table_of schema.now.bytes.now) }
{
    if !good {
        return Err(Refusal::CallTable);
    }
    if rows == schema.method_count() {
        Ok(())
    } else {
        Err(Refusal::TallyRows)
    }
}

// The frame that was read at the front of the bytes, after the call table and the tally rows.
pub fn front(
    good: bool,
    schema: &[u8],
    side: u8,
    bytes: &[u8],
    read: Result<FrameRead, Refusal>,
    rows: usize,
) -> Result<Whole, Stop>
    requires { IsGood schema.now × (frame.told read ≡ frame_of bytes.now) }
    ensures { told_front result ≡ front_of good rows (table_of schema.now) side bytes.now }
{
    judge_tables(good, &Schema::of_good(schema), rows)?;
    match read? {
        FrameRead::More => Err(Stop::More),
        FrameRead::Whole(frame) => Ok(Whole {
            frame: frame_from(side, frame.header),
            place: frame.place,
            end: frame.place + frame.length,
        }),
    }
}

// A whole frame with its slot.
pub fn plan_frame(slot: OwnSlot, schema: &Schema, whole: Whole) -> Settle<Refusal>
    ensures { told_plan (Ok result) ≡ slot_plan (table_of schema.now.bytes.now) whole.frame slot whole.place whole.end }
{
    let f = whole.frame;
    let judged = judge_frame(slot, schema.bytes, f);
    let rise = rise_of(slot.own, f.kind, judged);
    Settle {
        judged,
        rise,
        place: whole.place,
        end: whole.end,
    }
}

// The release of the call with this slot.
pub fn plan_call(slot: OwnSlot) -> Settle<Refusal>
    ensures { told_plan (Ok result) ≡ call_plan slot }
{
    let judged = judge_release(slot);
    let rise = release_rise(slot.own, judged);
    Settle {
        judged,
        rise,
        place: 0,
        end: 0,
    }
}

// ---- over a call table by value

// What a frame does under a good schema table, by what was read at the front of the bytes.
pub fn plan_good(
    table: CallTable,
    schema: &Schema,
    side: u8,
    bytes: &[u8],
    read: Result<FrameRead, Refusal>,
    rows: usize,
) -> Plan
    requires { frame.told read ≡ frame_of bytes.now }
    ensures { told_plan result ≡ good_plan (good_table (table_of schema.now.bytes.now) table.slots) rows (table_of schema.now.bytes.now) side bytes.now table.slots }
{
    let good = table.is_good(schema.bytes);
    let whole = front(good, schema.bytes, side, bytes, read, rows)?;
    let f = whole.frame;
    let slot = table.own_slot(f.correlation, f.kind == FrameKind::Invoke as u8);
    Ok(plan_frame(slot, schema, whole))
}

// One frame from a side (the byte C or S) with so many tally rows lent, judged in the order: schema table, call table, tally rows, frame, side and call.
pub fn plan(table: CallTable, schema: &[u8], side: u8, bytes: &[u8], rows: usize) -> Plan
    ensures { (told_plan result ≡ plan_of schema.now side bytes.now rows table.slots) × Fitted schema.now bytes.now (told_plan result).next × Fits schema.now bytes.now result }
{
    let schema = Schema::check(schema)?;
    plan_good(table, &schema, side, bytes, read_frame(bytes), rows)
}

// The release of a call with so many tally rows lent, judged in the order: schema table, call table, tally rows, call.
pub fn plan_release(table: CallTable, schema: &[u8], correlation: u64, rows: usize) -> Plan
    ensures { told_plan result ≡ release_plan schema.now table.slots correlation rows }
{
    let schema = Schema::check(schema)?;
    let good = table.is_good(schema.bytes);
    judge_tables(good, &schema, rows)?;
    Ok(plan_call(table.own_slot(correlation, false)))
}
