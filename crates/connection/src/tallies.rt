// Tally rows: what a judged frame or release raises in the row of its method.
ghost use Rattle.std.specs.Prelude.{◌≡◌, false};
ghost use Rattle.calls.specs.Counting.{ending, figure_by, amount_in, full_at, raised};
ghost use Rattle.calls.specs.Told.{told, told_number};
ghost use Rattle.calls.specs.Apart.{verdict, verdict_rise, verdict_release_rise};

use crate::numbers::{ends_call, number_in};
use calls::{Allowed, Call, Figure, Rise, Tally};
use constants::frame_kind::FrameKind;
use constants::limit;
use constants::numbered::Numbered;
use constants::refusal::ACCEPTED;

// A fresh row.
pub const NO_TALLY: Tally = Tally {
    opened: 0,
    completed: 0,
    errored: 0,
    cancelled: 0,
    failed: 0,
};

const NO_RISE: Rise = Rise {
    row: 0,
    accepted: Figure::Nothing,
    refused: Figure::Nothing,
};

// What an accepted frame of this kind counts as, where the call's record is `next` afterwards.
fn ending(call: Call, kind: u8, next: Call) -> Figure
    ensures { result ≡ ending kind call next }
{
    if kind == FrameKind::Error as u8 {
        if call.cancelled {
            Figure::Cancelled
        } else {
            Figure::Errored
        }
    } else if next.open {
        Figure::Nothing
    } else {
        Figure::Completed
    }
}

// What a judged frame of this kind to its own call raises. What is refused may be a refusal, a stop or a number.
pub fn rise_of<E: Numbered + Copy>(own: Option<Call>, kind: u8, judged: Result<Allowed, E>) -> Rise
    ensures { result ≡ verdict_rise kind own (verdict (told E.number judged)) }
{
    match (judged, own) {
        (Ok(Allowed::Opens(_, call, _)), _) => Rise {
            row: call.method as usize,
            accepted: Figure::Opened,
            refused: Figure::Nothing,
        },
        (Ok(Allowed::Goes(_, next, _)), Some(call)) => Rise {
            row: call.method as usize,
            accepted: ending(call, kind, next),
            refused: Figure::Failed,
        },
        _ => NO_RISE,
    }
}

// What its judged release raises.
pub fn release_rise<E: Numbered + Copy>(own: Option<Call>, judged: Result<Allowed, E>) -> Rise
    ensures { result ≡ verdict_release_rise own (verdict (told E.number judged)) }
{
    match (judged, own) {
        (Ok(Allowed::Goes(_, _, _)), Some(call)) => Rise {
            row: call.method as usize,
            accepted: Figure::Cancelled,
            refused: Figure::Nothing,
        },
        _ => NO_RISE,
    }
}

// The figure that rises, by what reading the payload gave.
#[tactic(auto, unfolding(calls::specs::Counting::figure_by))]
pub fn figure_by<E: Numbered + Copy>(rise: Rise, payload: Result<(), E>) -> Figure
    ensures { result ≡ figure_by rise (told_number E.number payload) }
{
    let number = number_in(payload);
    if number == ACCEPTED {
        rise.accepted
    } else if ends_call(number) {
        rise.refused
    } else {
        Figure::Nothing
    }
}

// How much a figure stands at.
fn amount(row: Tally, f: Figure) -> u32
    ensures { result ≡ amount_in row f }
{
    match f {
        Figure::Nothing => 0,
        Figure::Opened => row.opened,
        Figure::Completed => row.completed,
        Figure::Errored => row.errored,
        Figure::Cancelled => row.cancelled,
        Figure::Failed => row.failed,
    }
}

// Whether the figure is full.
pub fn is_full(row: Tally, f: Figure) -> bool
    ensures { result ≡ full_at row f }
{
    amount(row, f) == limit::TALLY
}

// The row with one more in a figure that is not full.
#[tactic(auto, unfolding(calls::specs::Counting::raised))]
pub fn raised(row: Tally, f: Figure) -> Tally
    requires { full_at row f ≡ false }
    ensures { result ≡ raised row f }
{
    let mut next = row;
    match f {
        Figure::Nothing => {}
        Figure::Opened => {
            next.opened += 1;
        }
        Figure::Completed => {
            next.completed += 1;
        }
        Figure::Errored => {
            next.errored += 1;
        }
        Figure::Cancelled => {
            next.cancelled += 1;
        }
        Figure::Failed => {
            next.failed += 1;
        }
    }
    next
}
