// One frame over the lent tally rows.
ghost use Rattle.std.specs.Prelude.{◌≡◌};
ghost use Rattle.receiver.specs.Answer.{effect};
ghost use Rattle.receiver.specs.Receive.{received};
ghost use Rattle.receiver.specs.Told.{told};

use crate::Received;
use crate::planning::{plan, row_of};
use crate::settling::settle;
use calls::Tally;
use connection::CallTable;
use connection::tallies::NO_TALLY;

// One frame from a side (the byte C or S), judged in the order: schema table, call table, number of tally rows, frame, side and call, payload, tally.
pub fn receive(
    table: CallTable,
    schema: &[u8],
    side: u8,
    bytes: &[u8],
    sheet: &mut [u32],
    tallies: &mut [Tally],
) -> Received
    ensures { effect (told result) sheet.new tallies.new ≡ received schema.now side bytes.now sheet.old tallies.old table.slots }
{
    let plan = plan(table, schema, side, bytes, tallies.len());
    let i = row_of(&plan);
    // Where the row that the plan asks for is not lent, a row of zeros is looked at, and none is kept.
    if i < tallies.len() {
        let next = settle(table, plan, schema, bytes, sheet, tallies[i]);
        tallies[i] = next.row;
        next.answer
    } else {
        settle(table, plan, schema, bytes, sheet, NO_TALLY).answer
    }
}
