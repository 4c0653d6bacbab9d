// The answer to a frame and to a release.
ghost use Rattle.std.specs.Prelude.{◌≡◌, ℕ, Ok};
ghost use Rattle.calls.specs.Step.{due_of};
ghost use Rattle.calls.specs.Told.{told_number};
ghost use Rattle.calls.specs.Told as calls;
ghost use Rattle.reader.specs.Entry.{numbers};
ghost use Rattle.receiver.specs.Answer.{used_of, answer_in, stopped};
ghost use Rattle.receiver.specs.Release.{release_in};
ghost use Rattle.receiver.specs.Told.{told, told_by, told_done, told_done_by, told_placed, told_reading, told_released_by, released_in, number_of_halt, place_of_halt};

use crate::payload::NOTHING;
use crate::{Done, Ends, Halt, Placed, Received, Released};
use calls::{Allowed, Payload, Stop};
use connection::CallTable;
use connection::numbers::{number_in, uses_frame};
use connection::slots::Slots;
use constants::numbered::Numbered;
use constants::refusal::Refusal;
use reader::Shown;

// Bytes used by a frame of this size.
pub fn used_of<E: Numbered + Copy>(answer: Result<(), E>, size: usize) -> usize
    ensures { result ≡ used_of (told_number E.number answer) size }
{
    if uses_frame(answer) { size } else { 0 }
}

// What the payload of a judged frame holds; that of a refused one is not read.
pub fn due_of<E>(judged: &Result<Allowed, E>) -> Payload
    ensures { (number : E → ℕ) → result ≡ due_of (calls.told number judged.now) }
{
    match judged {
        Ok(Allowed::Opens(_, _, due) | Allowed::Goes(_, _, due)) => *due,
        Err(_) => Payload::Unread,
    }
}

impl Ends for Halt {
    type Judged = Refusal;

    type Verdict = Stop;

    ghost number = { number_of_halt };

    ghost place = { place_of_halt };

    fn placed(self) -> Placed<Stop> {
        let place = match self {
            Halt::More => 0,
            Halt::Refused(refused) => refused.place,
        };
        Placed {
            place,
            refusal: self.into(),
        }
    }

    fn judged(refusal: Refusal) -> Stop {
        Stop::Refused(refusal)
    }

    fn read(refusal: Refusal) -> Stop {
        Stop::Refused(refusal)
    }
}

// Numbers are told as they are.
impl Ends for Placed<u32> {
    type Judged = u32;

    type Verdict = u32;

    ghost number = { λ e. e.refusal };

    ghost place = { λ e. e.place };

    fn placed(self) -> Placed<u32> {
        self
    }

    fn judged(refusal: u32) -> u32 {
        refusal
    }

    fn read(refusal: Refusal) -> u32 {
        u32::from(refusal)
    }
}

impl<V: Numbered + Copy> Received<V> {
    // What ends before the call is judged has no numbers but its own, and changes no call.
    #[tactic(auto, unfolding(crate::specs::Answer::stopped))]
    pub fn ended(table: CallTable, end: Placed<V>) -> Received<V>
        ensures { told_by V.number result ≡ stopped table.slots (V.number end.refusal) end.place }
    {
        Received {
            verdict: Err(end.refusal),
            place: end.place,
            used: 0,
            rows: 0,
            tail_place: 0,
            tail_length: 0,
            open: table.open_count(),
            comparisons: 0,
            table,
        }
    }
}

impl Received {
    // The same of a halt.
    pub fn halted(table: CallTable, halt: Halt) -> Received
        ensures { told result ≡ stopped table.slots (number_of_halt halt) (place_of_halt halt) }
    {
        Received::ended(table, halt.placed())
    }
}

// What a payload's reading means for the call.
fn payload_in<E: Copy>(reading: &Result<Shown, Placed<E>>) -> Result<(), E>
    ensures { (number : E → ℕ) → told_number number result ≡ (numbers (told_reading number reading.now)).number }
{
    match reading {
        Ok(_) => Ok(()),
        Err(refused) => Err(refused.refusal),
    }
}

// The number of a payload's reading, 0 where it is shown.
pub fn number_of<E: Numbered + Copy>(reading: Result<Shown, Placed<E>>) -> u32
    ensures { result ≡ (numbers (told_reading E.number reading)).number }
{
    number_in(payload_in(&reading))
}

// Where in the payload a reading is refused, 0 where it is shown.
pub fn place_of<E: Copy>(reading: Result<Shown, Placed<E>>) -> usize
    ensures { (number : E → ℕ) → result ≡ (numbers (told_reading number reading)).place }
{
    match reading {
        Ok(_) => 0,
        Err(refused) => refused.place,
    }
}

// The answer to a frame over a call table by value, whatever a refusal is.
pub fn answer<V: Numbered + Copy>(table: CallTable, done: Done<V, Placed<V>>) -> Received<V>
    ensures { told_by V.number result ≡ answer_in (told_placed V.number done) table.slots }
{
    let stepped = table.step(done.judged, payload_in(&done.reading));
    let next = stepped.table;
    let (place, shown) = match &done.reading {
        Ok(shown) => (0, *shown),
        Err(refused) => (refused.place, NOTHING),
    };
    Received {
        verdict: stepped.answer,
        place,
        used: used_of(stepped.answer, done.size),
        rows: shown.rows,
        tail_place: shown.tail_place,
        tail_length: shown.tail_length,
        open: next.open_count(),
        comparisons: shown.comparisons,
        table: next,
    }
}

// The answer to a release likewise.
pub fn release_answer<V: Numbered + Copy>(table: CallTable, done: Done<V, Placed<V>>) -> Released<V>
    ensures { told_released_by V.number result ≡ (release_in (told_placed V.number done) table.slots).answer }
{
    Released::from(answer(table, done))
}

// A settled plan with its refusals as an answer tells them.
pub fn with_verdicts<H: Ends>(done: Done<H::Judged>) -> Done<H::Verdict, Placed<H::Verdict>>
    ensures { told_placed H.Verdict.number result ≡ told_done_by H.Judged.number H.number H.place done.row (Ok done) }
{
    Done {
        row: done.row,
        judged: match done.judged {
            Ok(allowed) => Ok(allowed),
            Err(refusal) => Err(H::judged(refusal)),
        },
        reading: match done.reading {
            Ok(shown) => Ok(shown),
            Err(refused) => Err(Placed {
                place: refused.place,
                refusal: H::read(refused.refusal),
            }),
        },
        size: done.size,
    }
}

impl Done<Refusal> {
    // The answer to a frame over a call table by value.
    pub fn answer(self, table: CallTable) -> Received
        ensures { told result ≡ answer_in (told_done self.row (Ok self)) table.slots }
    {
        answer(table, with_verdicts::<Halt>(self))
    }
}

// A release's answer is a frame's without what the payload and the bytes say.
impl<V: Copy> From<Received<V>> for Released<V> {
    ghost from_gives = { λ r x. (number : V → ℕ) → told_released_by number x ≡ released_in (told_by number r) };

    fn from(r: Received<V>) -> Released<V> {
        Released {
            verdict: r.verdict,
            place: r.place,
            open: r.open,
            table: r.table,
        }
    }
}
