// Products modulo 2^64, and numbers mixed by them: their top bits tell apart numbers that differ in few of their own.
ghost use Rattle.std.specs.Prelude.{◌≡◌, ◌*◌, ◌%◌, ◌^◌};
ghost use Rattle.table.specs.Flags.{mixed};

use std::num::wrapping_add_u64;

// 2^32 and its exponent: the halves of a number are its quotient by it and the remainder.
pub const HALF: u64 = 4294967296;

const HALF_BITS: u64 = 32;

// The two steps of splitmix64: how far each shifts, and its factor.
const FIRST_SHIFT: u64 = 30;

const FIRST_FACTOR: u64 = 0xBF58_476D_1CE4_E5B9;

const SECOND_SHIFT: u64 = 27;

const SECOND_FACTOR: u64 = 0x94D0_49BB_1331_11EB;

// a * b, modulo 2^64, by the halves of both.
#[tactic(auto, using(crate::proofs::Products::halves_fit, crate::proofs::Products::by_halves))]
pub fn wrapping_mul(a: u64, b: u64) -> u64
    ensures { result ≡ a * b % 2 ^ 64 }
{
    let across = wrapping_add_u64((a / HALF) * (b % HALF), (a % HALF) * (b / HALF));
    wrapping_add_u64(across << HALF_BITS, (a % HALF) * (b % HALF))
}

// A number mixed as the generator splitmix64 mixes its state (Steele, Lea, Flood 2014), but for its last step, which leaves the top bits as they are.
#[tactic(auto, unfolding(crate::specs::Flags::mixed))]
pub fn mixed(x: u64) -> u64
    ensures { result ≡ mixed x }
{
    let once = wrapping_mul(x ^ (x >> FIRST_SHIFT), FIRST_FACTOR);
    wrapping_mul(once ^ (once >> SECOND_SHIFT), SECOND_FACTOR)
}
