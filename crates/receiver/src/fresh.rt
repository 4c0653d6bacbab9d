// One frame with fresh tally rows: whoever keeps no rows lends zeros, which are never full.
ghost use Rattle.std.specs.Prelude.{◌≡◌};
ghost use Rattle.schema.specs.Check.{IsGood};
ghost use Rattle.frame.specs.Frame.{frame_of};
ghost use Rattle.frame.specs.Told as frame;
ghost use Rattle.receiver.specs.Fresh.{fresh_effect, received_fresh};
ghost use Rattle.receiver.specs.Told.{told};

use crate::FrameAnswer;
use crate::planning::plan_good;
use crate::settling::settle;
use connection::CallTable;
use connection::tallies::NO_TALLY;
use frame::read_frame;
use table::good::Schema;

// The frame at the front of the bytes, and the answer to it by a good schema table, as `receive` gives it with a row of zeros for each method. Whoever
// answers frame after frame checks the schema table once.
pub fn receive_fresh(
    table: CallTable,
    schema: &[u8],
    side: u8,
    bytes: &[u8],
    sheet: &mut [u32],
) -> FrameAnswer
    requires { IsGood schema.now }
    ensures sheet_after { fresh_effect (told result.answer) sheet.new ≡ received_fresh schema.now side bytes.now sheet.old table.slots }
    ensures read_value { frame.told result.read ≡ frame_of bytes.now }
{
    let good = Schema::of_good(schema);
    let read = read_frame(bytes);
    let plan = plan_good(table, &good, side, bytes, read, good.method_count());
    FrameAnswer {
        read,
        answer: settle(table, plan, schema, bytes, sheet, NO_TALLY).answer,
    }
}
