// What an answer to a frame means for its call and for its bytes, by its number.
ghost use Rattle.std.specs.Prelude.{◌≡◌};
ghost use Rattle.calls.specs.Numbers.{ends_call, uses_frame};
ghost use Rattle.calls.specs.Told.{told_number};

use constants::numbered::Numbered;
use constants::refusal::{ACCEPTED, Refusal};

// The number of an answer, 0 where nothing is refused.
pub fn number_in<E: Numbered + Copy>(answer: Result<(), E>) -> u32
    ensures { result ≡ told_number E.number answer }
{
    match answer {
        Ok(()) => ACCEPTED,
        Err(refusal) => refusal.number(),
    }
}

// Whether it is a payload refusal that ends the open call.
#[tactic(auto, unfolding(calls::specs::Numbers::ends_call))]
pub fn ends_call(number: u32) -> bool
    ensures { result ≡ ends_call number }
{
    ((Refusal::Cut as u32 <= number) & (number <= Refusal::UnduePayload as u32))
        | (number == Refusal::MapTooLong as u32)
}

// Whether the frame's bytes are used: those of an accepted one, and of one that is refused for its call or its payload.
#[tactic(auto, unfolding(calls::specs::Numbers::uses_frame))]
pub fn uses_frame<E: Numbered + Copy>(answer: Result<(), E>) -> bool
    ensures { result ≡ uses_frame (told_number E.number answer) }
{
    let number = number_in(answer);
    (number == ACCEPTED)
        | (((Refusal::WrongSide as u32 <= number) & (number <= Refusal::NotNow as u32))
            | ((number == Refusal::Dropped as u32) | ends_call(number)))
}
