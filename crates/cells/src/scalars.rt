// A scalar, and the answer to a row, as numbers in cells.
ghost use Rattle.std.specs.Prelude.{◌≡◌, ◌∷◌, ℕ};
ghost use Rattle.std.specs.Float.{binary32, binary64};
ghost use Rattle.cells.specs.Scalars.{bits_of, float_bits, value_cells, told_by, scalar_cells};

use constants::refusal::Refused;
use scalar::Scalar;

// The cases of a value, as the answer tells them.
const TRUTH: u64 = 1;

const SIGNED: u64 = 2;

const UNSIGNED: u64 = 3;

const FLOAT32: u64 = 4;

const FLOAT64: u64 = 5;

const SPAN: u64 = 6;

// A whole number as the 64 bits of its two's complement.
fn bits_of(x: i64) -> u64
    ensures { result ≡ bits_of x }
{
    x.cast_unsigned()
}

// A float's own bits, and 0 for a NaN, which does not equal itself.
// Two functions: a trait over both formats would be longer than these and say no more.
fn bits32(x: f32) -> u32
    ensures { result ≡ float_bits binary32 x }
{
    if x != x {
        return 0;
    }
    f32::to_bits(x)
}

fn bits64(x: f64) -> u64
    ensures { result ≡ float_bits binary64 x }
{
    if x != x {
        return 0;
    }
    f64::to_bits(x)
}

fn value_cells(s: Scalar) -> [u64; 4]
    ensures { result ≡ 0 ∷ value_cells s }
{
    match s {
        Scalar::Truth(b) => [0, TRUTH, b as u64, 0],
        Scalar::Signed(x) => [0, SIGNED, bits_of(x), 0],
        Scalar::Unsigned(x) => [0, UNSIGNED, x, 0],
        Scalar::Float32(x, bits) => [0, FLOAT32, bits as u64, bits32(x) as u64],
        Scalar::Float64(x, bits) => [0, FLOAT64, bits, bits64(x)],
        Scalar::Span { place, length } => [0, SPAN, place as u64, length as u64],
    }
}

// What is refused at a place.
pub trait Placed {
    ghost place: { Self → ℕ };

    fn place(&self) -> usize
        ensures { result ≡ place self.now };
}

impl Placed for Refused {
    ghost place = { λ refused. refused.place };

    fn place(&self) -> usize {
        self.place
    }
}

// A number, which may be any, and its place.
impl Placed for (u32, usize) {
    ghost place = { λ refused. refused.1 };

    fn place(&self) -> usize {
        self.1
    }
}

// The cells of the answer to a row: place, case of the value and its two numbers. Of what is refused they tell the place alone, whatever its number.
pub fn scalar_cells<E: Placed + Copy>(a: Result<Scalar, E>) -> [u64; 4]
    ensures { (number : E → ℕ) → result ≡ scalar_cells (told_by number E.place a) }
{
    match a {
        Ok(s) => value_cells(s),
        Err(e) => [e.place() as u64, 0, 0, 0],
    }
}
