// The step of the call table on a judged frame. What is refused may be a refusal, a stop or a number.
ghost use Rattle.std.specs.Prelude.{◌≡◌};
ghost use Rattle.calls.specs.Step.{number_after, Changes};
ghost use Rattle.calls.specs.Told.{told, told_number};
ghost use Rattle.connection.specs.Step.{told_step, step_of};

use crate::call_record::EMPTY;
use crate::numbers::{ends_call, number_in};
use crate::{CallTable, Stepped};
use calls::{Allowed, Change};
use constants::limit;
use constants::numbered::Numbered;
use constants::refusal::ACCEPTED;

// The answer: the judgement's refusal, or else the payload's.
pub fn answer_after<E: Numbered + Copy>(
    judged: Result<Allowed, E>,
    payload: Result<(), E>,
) -> Result<(), E>
    ensures { told_number E.number result ≡ number_after (told E.number judged) (told_number E.number payload) }
{
    judged?;
    payload
}

// What an answer changes in the call table, by what reading the payload gave. A payload refusal that ends a call ends its own; an INVOKE refused for its
// payload opens none.
pub fn change_of<E: Numbered + Copy, R: Numbered + Copy>(
    judged: Result<Allowed, E>,
    payload: Result<(), R>,
) -> Change
    ensures { Changes (told E.number judged) (told_number R.number payload) result }
{
    let none = Change {
        slot: limit::CALLS,
        call: EMPTY,
    };
    let number = number_in(payload);
    match judged {
        Ok(Allowed::Opens(slot, call, _) | Allowed::Goes(slot, call, _)) if number == ACCEPTED =>
            Change { slot, call },
        Ok(Allowed::Goes(i, _, _)) if ends_call(number) => Change {
            slot: i,
            call: EMPTY,
        },
        _ => none,
    }
}

impl CallTable {
    // The answer and the next table.
    #[tactic(auto, unfolding(crate::specs::Step::step_of))]
    pub fn step<E: Numbered + Copy>(
        self,
        judged: Result<Allowed, E>,
        payload: Result<(), E>,
    ) -> Stepped<E>
        ensures { told_step E.number result ≡ step_of (told E.number judged) (told_number E.number payload) self.slots }
    {
        let change = change_of(judged, payload);
        Stepped {
            answer: answer_after(judged, payload),
            table: self.with_slot(change.slot, change.call),
        }
    }
}
