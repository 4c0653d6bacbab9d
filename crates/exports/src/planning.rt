// A frame and a release judged up to the payload against the call table in cells: which tally row they ask for, and what is left to do.
ghost use Rattle.std.specs.Prelude.{◌≡◌, ◌&&◌, cond};
ghost use Rattle.schema.specs.File.{table_of};
ghost use Rattle.schema.specs.Check.{checked};
ghost use Rattle.calls.specs.Slots.{good_table};
ghost use Rattle.receiver.specs.Planning.{Fitted, good_plan, plan_of, release_plan};
ghost use Rattle.receiver.specs.Told.{told_plan};
ghost use Rattle.cells.specs.Records.{calls_of, CountsOpen, are_calls};
ghost use Rattle.exports.specs.Answers.{refused_plan};

use cells::records::{are_good, open_count, own_slot};
use constants::frame_kind::FrameKind;
use frame::read_frame;
use receiver::planning::{front, judge_tables, plan_call, plan_frame};
use receiver::{Halt, Plan};
use table::good::Schema;

// One frame under a good schema table.
fn plan_good(
    cells: &[u64],
    schema: &Schema,
    side: u8,
    bytes: &[u8],
    rows: usize,
    calls: &mut usize,
) -> Plan
    ensures value { told_plan result ≡ good_plan (are_calls cells.now && good_table (table_of schema.now.bytes.now) (calls_of cells.now)) rows (table_of schema.now.bytes.now) side bytes.now (calls_of cells.now) }
    ensures counts_open { CountsOpen cells.now calls.new }
{
    let good = are_good(cells, schema.bytes, calls);
    let whole = front(good, schema.bytes, side, bytes, read_frame(bytes), rows)?;
    let f = whole.frame;
    let slot = own_slot(cells, f.correlation, f.kind == FrameKind::Invoke as u8);
    Ok(plan_frame(slot, schema, whole))
}

// One frame from a side with so many tally rows lent, judged in the order: schema table, call table, tally rows, frame, side and call. `calls` is how
// many are open before.
pub fn plan(
    cells: &[u64],
    schema: &[u8],
    side: u8,
    bytes: &[u8],
    rows: usize,
    calls: &mut usize,
) -> Plan
    ensures value { told_plan result ≡ cond (are_calls cells.now) (plan_of schema.now side bytes.now rows (calls_of cells.now)) (refused_plan (checked schema.now)) }
    ensures fitted { Fitted schema.now bytes.now (told_plan result).next }
    ensures counts_open { CountsOpen cells.now calls.new }
{
    match Schema::check(schema) {
        Err(refused) => {
            *calls = open_count(cells);
            Err(Halt::from(refused))
        }
        Ok(schema) => plan_good(cells, &schema, side, bytes, rows, calls),
    }
}

// The release of a call with so many tally rows lent, judged in the order: schema table, call table, tally rows, call. `calls` is how many are open before.
// It tells the refusal of the check by a match and not by `?`, since the calls that are open are counted then too.
pub fn plan_release(
    cells: &[u64],
    schema: &[u8],
    correlation: u64,
    rows: usize,
    calls: &mut usize,
) -> Plan
    ensures value { told_plan result ≡ cond (are_calls cells.now) (release_plan schema.now (calls_of cells.now) correlation rows) (refused_plan (checked schema.now)) }
    ensures counts_open { CountsOpen cells.now calls.new }
{
    match Schema::check(schema) {
        Err(refused) => {
            *calls = open_count(cells);
            Err(Halt::from(refused))
        }
        Ok(schema) => {
            let good = are_good(cells, schema.bytes, calls);
            judge_tables(good, &schema, rows)?;
            Ok(plan_call(own_slot(cells, correlation, false)))
        }
    }
}
