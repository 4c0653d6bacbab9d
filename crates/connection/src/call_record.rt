// The record of a call: all that depends on its members.
ghost use Rattle.std.specs.Prelude.{◌≡◌, true, false, ◌<◌};
ghost use Rattle.constants.specs.Number.{number_of};
ghost use Rattle.constants.specs.Kinds.{byte_of_side, number_of_frame_kind};
ghost use Rattle.calls.specs.Judge.{right_side};
ghost use Rattle.calls.specs.Record.{is_call, is_free, opened_call, complete, allowed, not_allowed, at_limit, marked, after_frame, zero_call, good_open};

use calls::{Call, FormRow};
use constants::frame_kind::FrameKind;
use constants::limit;
use constants::refusal::Refusal;
use constants::side::Side;

pub const EMPTY: Call = Call {
    correlation: 0,
    method: 0,
    open: false,
    responded: false,
    input_closed: false,
    output_closed: false,
    cancelled: false,
    input_elements: 0,
    output_elements: 0,
};

// The record that INVOKE makes.
pub fn opened(method: u32, correlation: u64) -> Call
    ensures { result ≡ opened_call method correlation }
{
    Call {
        correlation,
        method,
        open: true,
        ..EMPTY
    }
}

// Whether it is open under this correlation.
pub fn is_call(call: Call, id: u64) -> bool
    ensures { result ≡ is_call id call }
{
    call.open & (call.correlation == id)
}

pub fn is_free(call: Call) -> bool
    ensures { result ≡ is_free call }
{
    !call.open
}

// Whether RESPONSE has come and each stream that it has is closed.
pub fn is_complete(call: Call, row: FormRow) -> bool
    ensures { result ≡ complete row call }
{
    call.responded & ((!row.1 | call.input_closed) & (!row.3 | call.output_closed))
}

// Whether a frame that is no INVOKE is allowed. The kind may be any number: no call allows what is none.
pub fn allows(call: Call, row: FormRow, kind: u8) -> bool
    ensures { result ≡ allowed row kind call }
{
    match FrameKind::try_from(kind) {
        Ok(kind) => allows_kind(call, row, kind),
        Err(_) => false,
    }
}

pub(crate) fn allows_kind(call: Call, row: FormRow, kind: FrameKind) -> bool
    ensures { result ≡ allowed row (number_of_frame_kind kind) call }
{
    let input = !call.input_closed;
    let output = call.responded & !call.output_closed;
    match kind {
        FrameKind::Error => true,
        FrameKind::InStream => !call.cancelled & row.0 & input,
        FrameKind::InClose => !call.cancelled & row.1 & input,
        FrameKind::OutStream => !call.cancelled & row.2 & output,
        FrameKind::OutClose => !call.cancelled & row.3 & output,
        FrameKind::Response => !call.cancelled & !call.responded,
        FrameKind::Cancel => !call.cancelled,
        FrameKind::Invoke => false,
    }
}

// Why a frame is not allowed now: a server frame of a cancelled call is dropped. The kind may be any number.
pub fn not_allowed(call: Call, kind: u8) -> Refusal
    ensures { number_of result ≡ not_allowed kind call }
{
    if call.cancelled & ((FrameKind::OutStream as u8 <= kind) & (kind <= FrameKind::Error as u8)) {
        Refusal::Dropped
    } else {
        Refusal::NotNow
    }
}

// The side that sends frames of this kind.
pub fn sender(kind: FrameKind) -> Side
    ensures { right_side (byte_of_side result) (number_of_frame_kind kind) ≡ true }
{
    match kind {
        FrameKind::Invoke | FrameKind::InStream | FrameKind::InClose | FrameKind::Cancel => {
            Side::Client
        }
        FrameKind::OutStream | FrameKind::OutClose | FrameKind::Response | FrameKind::Error => {
            Side::Server
        }
    }
}

// Whether an element of this kind would be one above 65,535. The kind may be any number: what is none is no element.
pub fn at_limit(call: Call, kind: u8) -> bool
    ensures { result ≡ at_limit kind call }
{
    match FrameKind::try_from(kind) {
        Ok(kind) => at_limit_kind(call, kind),
        Err(_) => false,
    }
}

pub(crate) fn at_limit_kind(call: Call, kind: FrameKind) -> bool
    ensures { result ≡ at_limit (number_of_frame_kind kind) call }
{
    match kind {
        FrameKind::InStream => call.input_elements == limit::ELEMENTS,
        FrameKind::OutStream => call.output_elements == limit::ELEMENTS,
        _ => false,
    }
}

// The record with the mark of an accepted frame, or a stream element counted.
fn mark(call: Call, kind: FrameKind) -> Call
    requires { at_limit (number_of_frame_kind kind) call ≡ false }
    ensures { result ≡ marked (number_of_frame_kind kind) call }
{
    let mut next = call;
    next.open = true;
    match kind {
        FrameKind::InStream => next.input_elements += 1,
        FrameKind::InClose => next.input_closed = true,
        FrameKind::OutStream => next.output_elements += 1,
        FrameKind::OutClose => next.output_closed = true,
        FrameKind::Response => next.responded = true,
        FrameKind::Cancel => next.cancelled = true,
        FrameKind::Invoke | FrameKind::Error => {}
    }
    next
}

// The record after an accepted frame; an ended one is zeroed. The kind may be any number: what is none marks nothing, as INVOKE does.
pub fn after(call: Call, row: FormRow, kind: u8) -> Call
    requires { at_limit kind call ≡ false }
    ensures { result ≡ after_frame row kind call }
{
    match FrameKind::try_from(kind) {
        Ok(kind) => after_kind(call, row, kind),
        Err(_) => after_kind(call, row, FrameKind::Invoke),
    }
}

pub(crate) fn after_kind(call: Call, row: FormRow, kind: FrameKind) -> Call
    requires { at_limit (number_of_frame_kind kind) call ≡ false }
    ensures { result ≡ after_frame row (number_of_frame_kind kind) call }
{
    let next = mark(call, kind);
    if (kind == FrameKind::Error) | is_complete(next, row) {
        EMPTY
    } else {
        next
    }
}

// Whether a record is zero in every member but the mark that it is open.
pub fn is_zero(call: Call) -> bool
    ensures { result ≡ zero_call call }
{
    Call {
        open: false,
        ..call
    } == EMPTY
}

// Whether an open record is good by itself, where the schema has so many methods and its own has this form.
pub fn is_good_open(call: Call, methods: usize, row: FormRow) -> bool
    ensures { result ≡ good_open methods row call }
{
    let m = call.method as usize;
    (m < methods)
        & ((!call.input_closed | row.1)
            & ((!call.output_closed | (row.3 & call.responded))
                & ((row.0 | (call.input_elements == 0))
                    & ((row.2 | (call.output_elements == 0)) & !is_complete(call, row)))))
}
