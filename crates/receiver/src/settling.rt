// A plan settled with its tally row: the payload is read, the row is raised, and the record at one slot changes.
ghost use Rattle.std.specs.Prelude.{◌≡◌, false, Ok, List, ℕ};
ghost use Rattle.calls.specs.declared.Call.{Call};
ghost use Rattle.calls.specs.Judged as judged;
ghost use Rattle.calls.specs.Told as calls;
ghost use Rattle.calls.specs.Counting.{figure_by, full_at, raised};
ghost use Rattle.reader.specs.Entry.{numbers};
ghost use Rattle.reader.specs.Told as reader;
ghost use Rattle.receiver.specs.Answer.{row_effect, answer_in, counted_read};
ghost use Rattle.receiver.specs.Next as next;
ghost use Rattle.receiver.specs.Receive.{frame_settled, settled};
ghost use Rattle.receiver.specs.Release.{release_in, release_settled};
ghost use Rattle.receiver.specs.Told.{told_by, told_next_by, told_done_by, told_settled_release_by, Fits};

use crate::answer::{answer, due_of, release_answer, with_verdicts};
use crate::payload::{NOTHING, read_counted, verdict_of};
use crate::{Done, Ends, Received, Released, Settle, Settled, SettledRelease};
use calls::{Allowed, Rise, Tally};
use connection::CallTable;
use connection::tallies::{figure_by, is_full, raised};
use constants::refusal::{Refusal, Refused};
use reader::Shown;
use table::good::Schema;

// ---- for a call table by value or in cells

// A judged frame or release whose payload gave this reading: the row is raised by it.
fn raise<E>(
    judged: Result<Allowed, E>,
    rise: Rise,
    reading: Result<Shown, Refused>,
    size: usize,
    tally: Tally,
) -> Done<E>
    requires { full_at tally (figure_by rise (numbers (reader.told reading)).number) ≡ false }
    ensures { result ≡ record { row = raised tally (figure_by rise (numbers (reader.told reading)).number); judged = judged; reading = reading; size = size } }
{
    Done {
        row: raised(tally, figure_by(rise, verdict_of(&reading))),
        judged,
        reading,
        size,
    }
}

// A judged frame with this payload.
fn settle_frame<E>(
    settle: Settle<E>,
    schema: &Schema,
    payload: &[u8],
    sheet: &mut [u32],
    tally: Tally,
) -> Done<E>
    ensures { (number : E → ℕ) (none : ⊥ → ℕ) (l : List Call) → row_effect (answer_in (told_done_by number none none tally (Ok result)) l) sheet.new result.row
        ≡ frame_settled schema.now.bytes.now (calls.told number settle.judged) settle.rise payload.now settle.end sheet.old tally l }
{
    let due = due_of(&settle.judged);
    let reading = read_counted(schema, due, payload, sheet, tally, settle.rise);
    raise(settle.judged, settle.rise, reading, settle.end, tally)
}

// A planned frame, by the schema table and the bytes of its plan, for every call table, whatever a refusal and a halt are.
pub fn settle_plan<E, H>(
    plan: Result<Settle<E>, H>,
    schema: &[u8],
    bytes: &[u8],
    sheet: &mut [u32],
    tally: Tally,
) -> Result<Done<E>, H>
    requires { Fits schema.now bytes.now plan }
    ensures row_after { (number : E → ℕ) (n q : H → ℕ) (l : List Call) → row_effect (answer_in (told_done_by number n q tally result) l) sheet.new (told_done_by number n q tally result).row
        ≡ settled schema.now bytes.now sheet.old l tally (told_next_by number n q plan) }
    ensures by_index { (number : E → ℕ) (n q : H → ℕ) (m p : ℕ) → told_next_by number n q plan ≡ next.Refused m p → (told_done_by number n q tally result).judged ≡ judged.Refused m }
{
    match plan {
        Ok(settle) => {
            let payload = &bytes[settle.place..settle.end];
            Ok(settle_frame(settle, &Schema::of_good(schema), payload, sheet, tally))
        }
        Err(halt) => Err(halt),
    }
}

// A release reads nothing; 18 where the figure that would rise is full.
fn read_nothing(tally: Tally, rise: Rise) -> Result<Shown, Refused>
    ensures { reader.told result ≡ counted_read tally rise }
{
    let accepted: Result<(), Refusal> = Ok(());
    if is_full(tally, figure_by(rise, accepted)) {
        Refusal::TallyFull.at(0)
    } else {
        Ok(NOTHING)
    }
}

// A planned release, for every call table, whatever a refusal and a halt are.
// It stands beside `settle_plan`, since a release has no schema: one form would ask for a good one.
pub fn settle_call<E, H>(plan: Result<Settle<E>, H>, tally: Tally) -> Result<Done<E>, H>
    ensures l_value { (number : E → ℕ) (n q : H → ℕ) (l : List Call) → release_in (told_done_by number n q tally result) l ≡ release_settled l tally (told_next_by number n q plan) }
    ensures by_index { (number : E → ℕ) (n q : H → ℕ) (m p : ℕ) → told_next_by number n q plan ≡ next.Refused m p → (told_done_by number n q tally result).judged ≡ judged.Refused m }
{
    match plan {
        Ok(settle) => {
            let reading = read_nothing(tally, settle.rise);
            Ok(raise(settle.judged, settle.rise, reading, 0, tally))
        }
        Err(halt) => Err(halt),
    }
}

// ---- over a call table by value

// A planned frame, by the tables and the bytes of its plan, whatever its refusals are.
pub fn settle<H: Ends>(
    table: CallTable,
    plan: Result<Settle<H::Judged>, H>,
    schema: &[u8],
    bytes: &[u8],
    sheet: &mut [u32],
    tally: Tally,
) -> Settled<H::Verdict>
    requires { Fits schema.now bytes.now plan }
    ensures { row_effect (told_by H.Verdict.number result.answer) sheet.new result.row ≡ settled schema.now bytes.now sheet.old table.slots tally (told_next_by H.Judged.number H.number H.place plan) }
{
    match settle_plan(plan, schema, bytes, sheet, tally) {
        Ok(done) => Settled {
            row: done.row,
            answer: answer(table, with_verdicts::<H>(done)),
        },
        Err(halt) => Settled {
            row: tally,
            answer: Received::ended(table, halt.placed()),
        },
    }
}

// A planned release.
// It stands beside `settle` for the same reason.
pub fn settle_release<H: Ends>(
    table: CallTable,
    plan: Result<Settle<H::Judged>, H>,
    tally: Tally,
) -> SettledRelease<H::Verdict>
    ensures { told_settled_release_by H.Verdict.number result ≡ release_settled table.slots tally (told_next_by H.Judged.number H.number H.place plan) }
{
    match settle_call(plan, tally) {
        Ok(done) => SettledRelease {
            row: done.row,
            answer: release_answer(table, with_verdicts::<H>(done)),
        },
        Err(halt) => SettledRelease {
            row: tally,
            answer: Released::from(Received::ended(table, halt.placed())),
        },
    }
}
