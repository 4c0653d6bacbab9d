// The presence bitmap of a struct: bit i for field i, least bit first, in whole bytes.
ghost use Rattle.std.specs.Prelude.{◌≡◌, ◌+◌, ◌/◌, ◌%◌, ◌^◌, ◌≤◌, length, take, drop};
ghost use Rattle.wire.specs.Bitmap.{Present};

use crate::little::number;

// Bits of a byte, and the most of them that the last byte of a bitmap leaves over: n bits take (n + SPARE_BITS) / BYTE_BITS bytes.
pub const BYTE_BITS: usize = 8;

pub const SPARE_BITS: usize = BYTE_BITS - 1;

// Bits of a word, which is a `u64`.
const WORD_BITS: usize = 64;

// What a struct's bitmap says of its fields.
#[derive(Clone, Copy)]
pub struct Presence {
    // The whole word, and the known fields' bits of it.
    pub bits: u64,
    pub known: u64,
    // How many of the known fields' bits are set, and how many bits above them.
    pub ones: u32,
    pub unknown: u32,
}

// The n lowest bits of x.
pub fn low_bits(x: u64, n: usize) -> u64
    requires { n ≤ 64 }
    ensures { result ≡ x % 2 ^ n }
{
    if n == WORD_BITS {
        return x;
    }
    x & ((1 << n) - 1)
}

// The bitmap of a struct of n fields, at a place.
pub fn read(s: &[u8], at: usize, n: usize) -> Presence
    requires { (n ≤ 64) × (at + (n + 7) / 8 ≤ length s.now) }
    ensures { Present (take ((n + 7) / 8) (drop at s.now)) n result.bits result.known result.ones result.unknown }
{
    let bits = number(s, at, (n + SPARE_BITS) / BYTE_BITS);
    let known = low_bits(bits, n);
    let ones = known.count_ones();
    let all = bits.count_ones();
    Presence {
        bits,
        known,
        ones,
        unknown: all - ones,
    }
}
