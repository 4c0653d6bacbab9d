// A frame judged before its payload is read, and what the payload holds.
ghost use Rattle.std.specs.Prelude.{◌≡◌};
ghost use Rattle.schema.specs.File.{table_of};
ghost use Rattle.schema.specs.Check.{IsGood, is_missing};
ghost use Rattle.calls.specs.Slots.{slot_of};
ghost use Rattle.calls.specs.Judge.{right_side, typed, payload_of, call_verdict, open_verdict, invoke_verdict, other_verdict, method_of, release_verdict, placed};
ghost use Rattle.calls.specs.OwnSlots.{judged_at};
ghost use Rattle.calls.specs.Told.{told};
ghost use Rattle.constants.specs.Number.{number_of};
ghost use Rattle.constants.specs.Kinds.{number_of_frame_kind};
ghost use Rattle.connection.specs.Judge.{named_verdict};

use crate::call_record::{
    EMPTY, after_kind, allows_kind, at_limit_kind, not_allowed, opened, sender,
};
use crate::forms::row_of;
use calls::{Allowed, Call, Frame, OwnSlot, Payload};
use constants::frame_kind::FrameKind;
use constants::refusal::Refusal;
use constants::{format, limit};
use schema::Method;
use table::good::Schema;
use table::rows::is_named;

// Whether the kind comes from this side, the byte C or S. Both may be any numbers: no side sends what is none.
pub fn right_side(side: u8, kind: u8) -> bool
    ensures { result ≡ right_side side kind }
{
    match FrameKind::try_from(kind) {
        Ok(kind) => side == sender(kind) as u8,
        Err(_) => false,
    }
}

// What a type number of a method asks for: a value of that struct, or for 4294967295 nothing.
fn of_type(t: u32) -> Payload
    ensures { result ≡ typed t }
{
    if t == format::NO_TYPE {
        Payload::Empty
    } else {
        Payload::Struct(t)
    }
}

// What the payload of a frame to a call of this method holds. The kind may be any number: what is none holds nothing.
pub fn payload_of(m: Method, kind: u8) -> Payload
    ensures { result ≡ payload_of m kind }
{
    match FrameKind::try_from(kind) {
        Ok(kind) => payload_of_kind(m, kind),
        Err(_) => Payload::Empty,
    }
}

#[tactic(auto, unfolding(calls::specs::Judge::payload_of))]
fn payload_of_kind(m: Method, kind: FrameKind) -> Payload
    ensures { result ≡ payload_of m (number_of_frame_kind kind) }
{
    match kind {
        FrameKind::Invoke => of_type(m.input),
        FrameKind::InStream => of_type(m.input_stream),
        FrameKind::OutStream => of_type(m.output_stream),
        FrameKind::Response => of_type(m.output),
        FrameKind::Error => Payload::Unread,
        FrameKind::InClose | FrameKind::OutClose | FrameKind::Cancel => Payload::Empty,
    }
}

// The number of a slot; 128, past the last, where there is none.
fn slot_of(found: Option<usize>) -> usize
    ensures { result ≡ slot_of found }
{
    found.unwrap_or(limit::CALLS)
}

// A frame of this kind, to this open call of method m at slot i, which its identifiers name.
fn judge_named(call: Call, m: Method, kind: FrameKind, i: usize) -> Result<Allowed, Refusal>
    ensures { told number_of result ≡ placed i (named_verdict m (number_of_frame_kind kind) call) }
{
    let row = row_of(m.form);
    if !allows_kind(call, row, kind) {
        return Err(not_allowed(call, kind as u8));
    }
    if at_limit_kind(call, kind) {
        return Err(Refusal::TooManyElements);
    }
    Ok(Allowed::Goes(i, after_kind(call, row, kind), payload_of_kind(m, kind)))
}

// A frame that is no INVOKE, to this open call of method m at slot i. No frame has a kind past the last; such a one is not allowed.
pub fn judge_call(call: Call, m: Method, f: Frame, i: usize) -> Result<Allowed, Refusal>
    ensures { told number_of result ≡ placed i (call_verdict m f call) }
{
    if !is_named(m, f.package, f.service, f.method) {
        return Err(Refusal::OtherMethod);
    }
    match FrameKind::try_from(f.kind) {
        Ok(kind) => judge_named(call, m, kind, i),
        Err(_) => Err(Refusal::NotNow),
    }
}

// An INVOKE that would make this record.
fn judge_opening(seen: OwnSlot, new: Call, payload: Payload) -> Result<Allowed, Refusal>
    ensures { told number_of result ≡ placed (slot_of seen.slot) (open_verdict new payload seen.own (is_missing seen.slot)) }
{
    match (seen.own, seen.slot) {
        (Some(_), _) => Err(Refusal::CallOpen),
        (None, Some(j)) => Ok(Allowed::Opens(j, new, payload)),
        (None, None) => Err(Refusal::TooManyCalls),
    }
}

fn judge_invoke(seen: OwnSlot, schema: &Schema, f: Frame) -> Result<Allowed, Refusal>
    ensures { told number_of result ≡ placed (slot_of seen.slot) (invoke_verdict (table_of schema.now.bytes.now) f.correlation (method_of (table_of schema.now.bytes.now) f) seen.own (is_missing seen.slot)) }
{
    match schema.find_method(f.package, f.service, f.method) {
        None => Err(Refusal::UnknownMethod),
        Some(m) => {
            let payload = payload_of_kind(schema.method(m), FrameKind::Invoke);
            judge_opening(seen, opened(m as u32, f.correlation), payload)
        }
    }
}

fn judge_other(seen: OwnSlot, schema: &Schema, f: Frame) -> Result<Allowed, Refusal>
    ensures { told number_of result ≡ placed (slot_of seen.slot) (other_verdict (table_of schema.now.bytes.now) f seen.own) }
{
    match seen.own {
        None => Err(Refusal::CallNotOpen),
        Some(call) => judge_call(
            call,
            schema.method(call.method as usize),
            f,
            slot_of(seen.slot),
        ),
    }
}

// A frame before its payload is read, against a good schema table.
#[tactic(auto, unfolding(calls::specs::OwnSlots::judged_at, calls::specs::Judge::verdict_of))]
pub fn judge_frame(seen: OwnSlot, s: &[u8], f: Frame) -> Result<Allowed, Refusal>
    requires { IsGood s.now }
    ensures { told number_of result ≡ judged_at (table_of s.now) f seen }
{
    if !right_side(f.side, f.kind) {
        return Err(Refusal::WrongSide);
    }
    let schema = Schema::of_good(s);
    if f.kind == FrameKind::Invoke as u8 {
        judge_invoke(seen, &schema, f)
    } else {
        judge_other(seen, &schema, f)
    }
}

// A release, before the call is ended.
pub fn judge_release(seen: OwnSlot) -> Result<Allowed, Refusal>
    ensures { told number_of result ≡ placed (slot_of seen.slot) (release_verdict seen.own) }
{
    match seen.own {
        None => Err(Refusal::CallNotOpen),
        Some(call) if call.cancelled => {
            Ok(Allowed::Goes(slot_of(seen.slot), EMPTY, Payload::Unread))
        }
        Some(_) => Err(Refusal::NotNow),
    }
}
