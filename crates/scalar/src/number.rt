// The numbers of the scalar kinds: 1 bool, 2 to 5 signed, 6 to 9 unsigned, 10 and 11 floats.
ghost use Rattle.std.specs.Prelude.{◌≡◌, ◌+◌, ◌≤◌, ◌<◌, length, take, drop};
ghost use Rattle.schema.specs.Table.{width};
ghost use Rattle.scalar.specs.Scalar.{value_of};

use crate::Scalar;
use crate::float::{float32, float64};
use constants::kind::Kind;
use table::kind::width_of;
use wire::bitmap::BYTE_BITS;
use wire::little::{number, signed};

// The value of a scalar kind at a place.
// The kind is the cell of a table: a match on `Kind` would have sixteen arms for five ways.
pub fn value(s: &[u8], kind: usize, place: usize) -> Scalar
    requires { (0 < kind) × (kind < 12) × (place + width kind ≤ length s.now) }
    ensures { result ≡ value_of kind (take (width kind) (drop place s.now)) }
{
    let w = width_of(kind);
    let x = number(s, place, w);
    if kind == Kind::Bool as usize {
        return Scalar::Truth(x == 1);
    }
    if kind <= Kind::Int64 as usize {
        return Scalar::Signed(signed(x, 1 << (BYTE_BITS * w - 1)));
    }
    if kind <= Kind::Uint64 as usize {
        return Scalar::Unsigned(x);
    }
    if kind == Kind::Float32 as usize {
        let n = x as u32;
        return Scalar::Float32(float32(n), n);
    }
    Scalar::Float64(float64(x), x)
}
