// What stands at a place of a payload: a VarUInt, a number of a width, a span of bytes.
ghost use Rattle.std.specs.Prelude.{◌≡◌, ◌-◌, ◌≤◌, ◌<◌, length};
ghost use Rattle.cursor.specs.Item.{width_bytes, varuint_at, fixed_number_at, span_at};
ghost use Rattle.cursor.specs.Told.{told_number_step, told_span_step};

use constants::refusal::{Refusal, Refused};
use wire::varuint::Past;
use wire::{little, varuint};

// A number's width in bytes.
#[derive(Clone, Copy, Debug, PartialEq, Eq)]
pub enum Width {
    One = 1,
    Two = 2,
    Four = 4,
    Eight = 8,
}

impl Width {
    // How many bytes it has.
    fn bytes(self) -> usize
        ensures { (result ≡ width_bytes self) × (0 < result) × (result ≤ 8) }
    {
        self as usize
    }
}

// Where a content stands, and how long it is.
#[derive(Clone, Copy, Debug, PartialEq, Eq)]
pub struct Content {
    pub place: usize,
    pub length: usize,
}

// How many bytes are left from a place on.
pub fn left_from(payload: &[u8], at: usize) -> usize
    ensures { result ≡ length payload.now - at }
{
    payload.len().saturating_sub(at)
}

// The VarUInt at a place.
pub fn varuint_at(payload: &[u8], at: usize) -> Result<Past, Refused>
    ensures { told_number_step at result ≡ varuint_at payload.now at }
{
    match varuint::read(payload, at) {
        Ok(past) => Ok(past),
        Err(error) => Refusal::from(error).at(at),
    }
}

// The number of a width at a place.
pub fn number_at(payload: &[u8], at: usize, width: Width) -> Result<Past, Refused>
    ensures { told_number_step at result ≡ fixed_number_at width payload.now at }
{
    let n = width.bytes();
    if n <= left_from(payload, at) {
        return Ok(Past {
            value: little::number(payload, at, n),
            next: at + n,
        });
    }
    Refusal::Cut.at(at)
}

// The span at a place: a VarUInt length, and that many bytes.
pub fn span_at(payload: &[u8], at: usize) -> Result<Content, Refused>
    ensures { told_span_step at result ≡ span_at payload.now at }
{
    let size = varuint_at(payload, at)?;
    if (left_from(payload, size.next) as u64) < size.value {
        return Refusal::Cut.at(at);
    }
    Ok(Content {
        place: size.next,
        length: size.value as usize,
    })
}
