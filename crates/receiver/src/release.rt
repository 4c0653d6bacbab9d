// The release of a cancelled call over the lent tally rows.
ghost use Rattle.std.specs.Prelude.{◌≡◌};
ghost use Rattle.receiver.specs.Release.{release_effect, released};
ghost use Rattle.receiver.specs.Told.{told_released};

use crate::Released;
use crate::planning::{plan_release, row_of};
use crate::settling::settle_release;
use calls::Tally;
use connection::CallTable;
use connection::tallies::NO_TALLY;

// Ends the cancelled call with this correlation, judged in the order: schema table, call table, number of tally rows, call, tally.
pub fn release(table: CallTable, schema: &[u8], correlation: u64, tallies: &mut [Tally]) -> Released
    ensures { release_effect (told_released result) tallies.new ≡ released schema.now table.slots correlation tallies.old }
{
    let plan = plan_release(table, schema, correlation, tallies.len());
    let i = row_of(&plan);
    // As for a frame, a row that is not lent is one of zeros.
    if i < tallies.len() {
        let next = settle_release(table, plan, tallies[i]);
        tallies[i] = next.row;
        next.answer
    } else {
        settle_release(table, plan, NO_TALLY).answer
    }
}
