// A row over its bytes by a schema table. The refusals, after the table's own: 50, 51, 22, 23.
ghost use Rattle.std.specs.Prelude.{◌≡◌, ◌<◌};
ghost use Rattle.buffer.specs.Span.{inside};
ghost use Rattle.schema.specs.File.{table_of};
ghost use Rattle.scalar.specs.Scalar.{text_at, scalar_of, scalar_by, scalar_at};
ghost use Rattle.scalar.specs.Told.{told};

use crate::Scalar;
use crate::number::value;
use constants::kind::Kind;
use constants::refusal::{Refusal, Refused};
use table::good::Schema;
use table::kind::width_of;
use utf8::valid;
use value::Row;

// Whether the span lies in the bytes.
fn is_inside(bytes: &[u8], place: usize, length: usize) -> bool
    requires { (place < 4294967296) × (length < 4294967296) }
    ensures { result ≡ inside bytes.now place length }
{
    place + length <= bytes.len()
}

// A scalar of a kind, whose row has this place and length.
fn number_at(bytes: &[u8], kind: u32, place: usize, length: usize) -> Result<Scalar, Refused>
    requires { (0 < kind) × (kind < 12) × (place < 4294967296) × (length < 4294967296) }
    ensures { told result ≡ scalar_at kind place length bytes.now }
{
    if length != width_of(kind as usize) {
        return Refusal::Sheet.at(0);
    }
    if !is_inside(bytes, place, length) {
        return Refusal::Outside.at(0);
    }
    if kind == Kind::Bool as u32 {
        if 1 < bytes[place] {
            return Refusal::Bool.at(place);
        }
    }
    Ok(value(bytes, kind as usize, place))
}

// A string (kind 12) or bytes (kind 13).
fn text_at(bytes: &[u8], kind: u32, place: usize, length: usize) -> Result<Scalar, Refused>
    requires { (place < 4294967296) × (length < 4294967296) }
    ensures { told result ≡ text_at kind place length bytes.now }
{
    if !is_inside(bytes, place, length) {
        return Refusal::Outside.at(0);
    }
    if kind == Kind::String as u32 {
        if !valid(bytes, place, place + length) {
            return Refusal::Utf8.at(place);
        }
    }
    Ok(Scalar::Span { place, length })
}

// By a good table.
pub fn scalar_of(schema: &Schema, row: Row, bytes: &[u8]) -> Result<Scalar, Refused>
    ensures { told result ≡ scalar_of (table_of schema.now.bytes.now) row bytes.now }
{
    let kind = schema.type_row(row.ty as usize).kind;
    let place = row.place as usize;
    let length = row.length as usize;
    if (kind == 0) | ((kind > Kind::Bytes as u32) | (row.count != 0)) {
        return Refusal::Sheet.at(0);
    }
    if kind < Kind::String as u32 {
        number_at(bytes, kind, place, length)
    } else {
        text_at(bytes, kind, place, length)
    }
}

// By any schema file: its own refusals come first.
#[tactic(auto, unfolding(crate::specs::Scalar::scalar_by))]
pub fn scalar(schema: &[u8], row: Row, bytes: &[u8]) -> Result<Scalar, Refused>
    ensures { told result ≡ scalar_by schema.now row bytes.now }
{
    let schema = Schema::check(schema)?;
    scalar_of(&schema, row, bytes)
}
