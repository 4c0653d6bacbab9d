// The number and the other numbers of an answer, as other languages get them.
ghost use Rattle.std.specs.Prelude.{◌≡◌, ℕ, [], ◌∷◌};
ghost use Rattle.exports.specs.Numbers.{number_or_0, place_or_0, length_or_0};

use constants::numbered::Numbered;
use constants::refusal::{ACCEPTED, Refused};

// 0 where nothing is refused.
pub fn number<T, E: Numbered>(answer: &Result<T, E>) -> u32
    ensures { result ≡ number_or_0 E.number answer.now }
{
    match answer {
        Ok(_) => ACCEPTED,
        Err(e) => e.number(),
    }
}

// Where it is refused, and else 0.
pub fn place<T>(answer: &Result<T, Refused>) -> u64
    ensures { result ≡ place_or_0 answer.now }
{
    match answer {
        Ok(_) => 0,
        Err(e) => e.place as u64,
    }
}

// The place, and the length of what was written.
pub fn length_cells(answer: &Result<usize, Refused>) -> [u64; 2]
    ensures { result ≡ place_or_0 answer.now ∷ length_or_0 answer.now ∷ [] }
{
    match answer {
        Ok(length) => [0, *length as u64],
        Err(e) => [e.place as u64, 0],
    }
}
