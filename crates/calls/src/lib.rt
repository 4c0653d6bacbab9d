// The calls of a connection: the record of a call, what frames and releases do to it, and what these raise in a tally row. The definitions stand in specs/,
// their laws in proofs/, and the code in the crate `connection`.
#![tactic(auto)]

ghost use Rattle.std.specs.Prelude.{◌≡◌};
ghost use Rattle.calls.specs.declared.Stop.TheVariants.{Refused};
ghost use Rattle.calls.specs.Told.{number_of_stop};

use constants::numbered::Numbered;
use constants::refusal::{MORE, Refusal};

// The record of a call. A free slot is zero in every member.
#[derive(Clone, Copy, PartialEq, Eq)]
pub struct Call {
    pub correlation: u64,
    pub method: u32,
    pub open: bool,
    pub responded: bool,
    pub input_closed: bool,
    pub output_closed: bool,
    // CANCEL was accepted: only ERROR and a release end the call.
    pub cancelled: bool,
    // The stream elements accepted each way since INVOKE.
    pub input_elements: u16,
    pub output_elements: u16,
}

// A row of the forms' table: whether the form allows IN_STREAM, IN_CLOSE, OUT_STREAM and OUT_CLOSE.
#[derive(Clone, Copy)]
pub struct FormRow(pub bool, pub bool, pub bool, pub bool);

// What a step sees of a whole frame, and the side that it came from. Side and kind may be any numbers: `judge_frame` promises an answer for each.
#[derive(Clone, Copy)]
pub struct Frame {
    pub side: u8,
    pub kind: u8,
    pub package: u32,
    pub service: u32,
    pub method: u32,
    pub correlation: u64,
}

// What a frame's payload holds: a value of a struct type, nothing, or bytes that are not read.
#[derive(Clone, Copy)]
pub enum Payload {
    Struct(u32),
    Empty,
    Unread,
}

// What a judgement sees of the call table: the record of its own call, and the slot that it changes, if there is one.
#[derive(Clone, Copy)]
pub struct OwnSlot {
    pub own: Option<Call>,
    pub slot: Option<usize>,
}

// A frame that is allowed, before its payload is read; or a release, which reads nothing.
#[derive(Clone, Copy)]
pub enum Allowed {
    // It opens a call at this slot, with this record.
    Opens(usize, Call, Payload),
    // It goes to the open call at this slot, whose record is this one once the frame is accepted.
    Goes(usize, Call, Payload),
}

// Why a frame or a release changes nothing: more bytes are needed, or it is refused.
#[derive(Clone, Copy)]
pub enum Stop {
    More,
    Refused(Refusal),
}

impl From<Refusal> for Stop {
    ghost from_gives = { λ refusal stop. stop ≡ Refused refusal };

    fn from(refusal: Refusal) -> Stop {
        Stop::Refused(refusal)
    }
}

impl Numbered for Stop {
    ghost number = { number_of_stop };

    fn number(&self) -> u32 {
        match *self {
            Stop::More => MORE,
            Stop::Refused(refusal) => refusal as u32,
        }
    }
}

// The record that an answer puts at a slot; there is no slot 128.
#[derive(Clone, Copy)]
pub struct Change {
    pub slot: usize,
    pub call: Call,
}

// A tally row: how many calls of a method were opened, and how many ended in each way.
#[derive(Clone, Copy)]
pub struct Tally {
    pub opened: u32,
    pub completed: u32,
    pub errored: u32,
    pub cancelled: u32,
    pub failed: u32,
}

// A figure of a tally row, or none.
#[derive(Clone, Copy)]
pub enum Figure {
    Nothing,
    Opened,
    Completed,
    Errored,
    Cancelled,
    Failed,
}

// What a judged frame or release raises: in the row of this method, once it is accepted, and where its payload is refused.
#[derive(Clone, Copy)]
pub struct Rise {
    pub row: usize,
    pub accepted: Figure,
    pub refused: Figure,
}
