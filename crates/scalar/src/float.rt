// The float that a bit pattern stands for. Every NaN pattern is a NaN.
// Two functions: a trait over both formats, with a sign, an infinity and a way from bits for each, would be longer than these and say no more.
ghost use Rattle.std.specs.Prelude.{◌≡◌};
ghost use Rattle.std.specs.Float.{binary32, binary64};
ghost use Rattle.std.specs.Float.Ieee.{of_bits};

// The sign bit, and the pattern of infinity: with its sign left out, a NaN is above it.
const SIGN_32: u32 = 0x8000_0000;

const INFINITY_32: u32 = 0x7F80_0000;

const SIGN_64: u64 = 0x8000_0000_0000_0000;

const INFINITY_64: u64 = 0x7FF0_0000_0000_0000;

pub fn float32(n: u32) -> f32
    ensures { result ≡ of_bits binary32 n }
{
    if INFINITY_32 < n % SIGN_32 {
        return 0.0 / 0.0;
    }
    f32::from_bits(n)
}

pub fn float64(n: u64) -> f64
    ensures { result ≡ of_bits binary64 n }
{
    if INFINITY_64 < n % SIGN_64 {
        return 0.0 / 0.0;
    }
    f64::from_bits(n)
}
