// One frame's bytes with their side, judged against the schema table, the call table, the sheet and the tally rows; and the release of a cancelled call.
// An entry is a plan, which names the tally row, and its settling with that row.
#![tactic(auto)]

pub mod answer;
pub mod fresh;
pub mod payload;
pub mod planning;
pub mod receive;
pub mod release;
pub mod settling;

ghost use Rattle.std.specs.Prelude.{◌≡◌, ℕ};
ghost use Rattle.constants.specs.Number.{number_of};
ghost use Rattle.receiver.specs.declared.Halt.TheVariants as halt;
ghost use Rattle.receiver.specs.Told.{told_by, told_released_by, halted, stop_of};

use calls::{Allowed, Frame, Rise, Stop, Tally};
use connection::CallTable;
use connection::numbers::number_in;
use constants::numbered::Numbered;
use constants::refusal::{Refusal, Refused};
use frame::FrameRead;
use reader::Shown;

// The answer to a frame, with the next call table. The entries say why not by a stop, and the answer to a plan of numbers says it by a number.
#[derive(Clone, Copy)]
pub struct Received<V = Stop> {
    // Accepted; or why not, more bytes needed or a refusal.
    pub verdict: Result<(), V>,
    // Where in the payload, or at which row of the schema table, the refusal is.
    pub place: usize,
    // Bytes used.
    pub used: usize,
    // Rows written to the sheet.
    pub rows: usize,
    // The tail: what follows the root's known fields and is not read.
    pub tail_place: usize,
    pub tail_length: usize,
    // Calls open afterwards.
    pub open: usize,
    // Key comparisons that were due in the value read.
    pub comparisons: usize,
    pub table: CallTable,
}

impl<V: Numbered + Copy> Received<V> {
    // 0 for an accepted frame, 1 for more bytes needed, or a refusal's number.
    pub fn number(&self) -> u32
        ensures { result ≡ (told_by V.number self.now).number }
    {
        number_in(self.verdict)
    }
}

// The frame at the front of the bytes as it was read, and the answer to it.
#[derive(Clone, Copy)]
pub struct FrameAnswer {
    pub read: Result<FrameRead, Refusal>,
    pub answer: Received,
}

// The answer to a release, with the next call table.
#[derive(Clone, Copy)]
pub struct Released<V = Stop> {
    // The call was released; or why not.
    pub verdict: Result<(), V>,
    // At which row of the schema table the refusal is.
    pub place: usize,
    // Calls open afterwards.
    pub open: usize,
    pub table: CallTable,
}

impl<V: Numbered + Copy> Released<V> {
    // 0 for a call that was released, or a refusal's number.
    pub fn number(&self) -> u32
        ensures { result ≡ (told_released_by V.number self.now).number }
    {
        number_in(self.verdict)
    }
}

// Why an entry ends before its call is judged: more bytes are needed, or a refusal at its place.
#[derive(Clone, Copy)]
pub enum Halt {
    More,
    Refused(Refused),
}

impl From<Refused> for Halt {
    ghost from_gives = { λ refused h. h ≡ halt.Refused refused };

    fn from(refused: Refused) -> Halt {
        Halt::Refused(refused)
    }
}

// What has no place of its own has place 0.
impl From<Refusal> for Halt {
    ghost from_gives = { λ refusal h. h ≡ halt.Refused (record { place = 0; refusal = refusal }) };

    fn from(refusal: Refusal) -> Halt {
        Halt::Refused(Refused { place: 0, refusal })
    }
}

impl From<Stop> for Halt {
    ghost from_gives = { λ stop h. h ≡ halted stop };

    fn from(stop: Stop) -> Halt {
        match stop {
            Stop::More => Halt::More,
            Stop::Refused(refusal) => Halt::Refused(Refused { place: 0, refusal }),
        }
    }
}

impl From<Halt> for Stop {
    ghost from_gives = { λ h stop. stop ≡ stop_of h };

    fn from(halt: Halt) -> Stop {
        match halt {
            Halt::More => Stop::More,
            Halt::Refused(refused) => Stop::Refused(refused.refusal),
        }
    }
}

// A refusal at its place, whatever a refusal is; a number, for one.
#[derive(Clone, Copy)]
pub struct Placed<E> {
    pub place: usize,
    pub refusal: E,
}

// What can end an entry before its call is judged. Beside it stand a judgement's refusal, and what an answer tells of both, with the same number.
pub trait Ends: Copy {
    // A judgement's refusal.
    type Judged: Numbered + Copy;

    // Why an answer says that nothing is accepted.
    type Verdict: Numbered + Copy;

    ghost number: { Self → ℕ };

    ghost place: { Self → ℕ };

    // What ended it, at its place.
    fn placed(self) -> Placed<Self::Verdict>
        ensures is_number { Self.Verdict.number result.refusal ≡ number self }
        ensures is_place { result.place ≡ place self };

    // What a judgement refused.
    fn judged(refusal: Self::Judged) -> Self::Verdict
        ensures { Self.Verdict.number result ≡ Self.Judged.number refusal };

    // What the payload's reading refused.
    fn read(refusal: Refusal) -> Self::Verdict
        ensures { Self.Verdict.number result ≡ number_of refusal };
}

// A whole frame at the front of the bytes, whose payload stands between two places.
#[derive(Clone, Copy)]
pub struct Whole {
    pub frame: Frame,
    pub place: usize,
    pub end: usize,
}

// A judged frame, whose payload stands between two places of the bytes, and what it may raise; or a judged release, which has no payload.
#[derive(Clone, Copy)]
pub struct Settle<E> {
    pub judged: Result<Allowed, E>,
    pub rise: Rise,
    pub place: usize,
    pub end: usize,
}

// What is left to do once the tables, the frame and its call are judged. It asks for the tally row that it may raise.
pub type Plan = Result<Settle<Refusal>, Halt>;

// A plan settled up to the call table: the tally row afterwards, and what the answer comes from, the judgement, the payload's reading and the frame's size.
#[derive(Clone, Copy)]
pub struct Done<E, R = Refused> {
    pub row: Tally,
    pub judged: Result<Allowed, E>,
    pub reading: Result<Shown, R>,
    pub size: usize,
}

// The tally row afterwards, and the answer.
#[derive(Clone, Copy)]
pub struct Settled<V = Stop> {
    pub row: Tally,
    pub answer: Received<V>,
}

#[derive(Clone, Copy)]
pub struct SettledRelease<V = Stop> {
    pub row: Tally,
    pub answer: Released<V>,
}
