// The payload of a whole frame.
ghost use Rattle.std.specs.Prelude.{◌≡◌};
ghost use Rattle.constants.specs.Number.{number_of};
ghost use Rattle.calls.specs.Told.{told_number};
ghost use Rattle.reader.specs.Entry.{Outcome, numbers, number_in};
ghost use Rattle.reader.specs.Told.{told};
ghost use Rattle.receiver.specs.Answer.{empty_read, payload_read, tallied};

use calls::{Payload, Rise, Tally};
use connection::tallies::{figure_by, is_full};
use constants::refusal::{Refusal, Refused};
use reader::{Shown, judge_payload, read_payload};
use table::good::Schema;

// No value is read.
pub const NOTHING: Shown = Shown {
    rows: 0,
    tail_place: 0,
    tail_length: 0,
    comparisons: 0,
};

// What a reading means for the call: it is accepted, or refused.
pub fn verdict_of(reading: &Result<Shown, Refused>) -> Result<(), Refusal>
    ensures { told_number number_of result ≡ (numbers (told reading.now)).number }
{
    match reading {
        Ok(_) => Ok(()),
        Err(refused) => Err(refused.refusal),
    }
}

// A payload where none belongs is 29.
fn judge_empty(payload: &[u8]) -> Result<Shown, Refused>
    ensures { told result ≡ empty_read payload.now }
{
    if payload.len() == 0 {
        Ok(NOTHING)
    } else {
        Refusal::UnduePayload.at(0)
    }
}

// Reads a payload as what it holds.
#[tactic(auto, unfolding(crate::specs::Answer::payload_read))]
fn read(schema: &Schema, due: Payload, payload: &[u8], sheet: &mut [u32]) -> Result<Shown, Refused>
    ensures { Outcome.outcome (told result) sheet.new ≡ payload_read schema.now.bytes.now due payload.now sheet.old }
{
    match due {
        Payload::Struct(ty) => read_payload(schema, ty, payload, sheet),
        Payload::Empty => judge_empty(payload),
        Payload::Unread => Ok(NOTHING),
    }
}

// What reading it answers; the sheet's cells are not touched.
#[tactic(auto, unfolding(crate::specs::Answer::payload_read))]
fn judge(schema: &Schema, due: Payload, payload: &[u8], sheet: &[u32]) -> Result<(), Refusal>
    ensures { told_number number_of result ≡ number_in (payload_read schema.now.bytes.now due payload.now sheet.now) }
{
    match due {
        Payload::Struct(ty) => judge_payload(schema, ty, payload, sheet),
        Payload::Empty => verdict_of(&judge_empty(payload)),
        Payload::Unread => Ok(()),
    }
}

// Reads a payload, unless the figure that would rise is full. Where a figure that it may raise is full, the payload is judged before anything is written.
pub fn read_counted(
    schema: &Schema,
    due: Payload,
    payload: &[u8],
    sheet: &mut [u32],
    tally: Tally,
    rise: Rise,
) -> Result<Shown, Refused>
    ensures { Outcome.outcome (told result) sheet.new ≡ tallied tally rise sheet.old (payload_read schema.now.bytes.now due payload.now sheet.old) }
{
    if !(is_full(tally, rise.accepted) | is_full(tally, rise.refused)) {
        return read(schema, due, payload, sheet);
    }
    let figure = figure_by(rise, judge(schema, due, payload, sheet));
    if is_full(tally, figure) {
        return Refusal::TallyFull.at(0);
    }
    read(schema, due, payload, sheet)
}
