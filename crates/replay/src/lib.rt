// The run of a record: one entry after the other from the fresh call table.
#![tactic(auto)]

ghost use Rattle.std.specs.Prelude.{◌≡◌, ℕ, length};
ghost use Rattle.schema.specs.Check.{IsGood};
ghost use Rattle.frame.specs.Frame.{frame_of};
ghost use Rattle.frame.specs.Told as frame;
ghost use Rattle.receiver.specs.Told.{told};
ghost use Rattle.replay.specs.Run.{answer_to, stops as stops_at, told_read, header_in};

use connection::CallTable;
use constants::refusal::Refusal;
use constants::side::Side;
use frame::{FrameRead, Header};
use receiver::FrameAnswer;

const NO_HEADER: Header = Header {
    kind: 0,
    package: 0,
    service: 0,
    method: 0,
    correlation: 0,
};

// An entry's frame and the answer to it, by a good schema file, on a sheet of 4,096 rows, with fresh tallies.
pub fn step(
    table: CallTable,
    schema: &[u8],
    side: u8,
    bytes: &[u8],
    sheet: &mut [u32],
) -> FrameAnswer
    requires { IsGood schema.now × (length sheet.old ≡ 16384) }
    ensures { (told result.answer ≡ answer_to schema.now side bytes.now table.slots) × (frame.told result.read ≡ frame_of bytes.now) }
{
    receiver::fresh::receive_fresh(table, schema, side, bytes, sheet)
}

// Whether an entry with this side and answer stops the run.
pub fn stops(side: u8, number: u32, used: usize) -> bool
    ensures { result ≡ stops_at side number used }
{
    let is_side = (side == Side::Client as u8) | (side == Side::Server as u8);
    (used == 0) | ((number == Refusal::WrongSide as u32) & !is_side)
}

// The header of a frame that was read, whatever a refusal is; without a frame it is zeros.
#[tactic(auto, unfolding(crate::specs::Run::header_in))]
pub fn header<E: Copy>(read: Result<FrameRead, E>) -> Header
    ensures { (number : E → ℕ) → result ≡ header_in (told_read number read) }
{
    match read {
        Ok(FrameRead::Whole(frame)) => frame.header,
        Ok(FrameRead::More) => NO_HEADER,
        Err(_) => NO_HEADER,
    }
}
