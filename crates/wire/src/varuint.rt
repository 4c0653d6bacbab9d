// VarUInt: seven bits a byte, least group first, the top bit set on all but the last byte; at most ten bytes, the tenth 0 or 1. Of two or more bytes
// the last is not 0, so that a number has one VarUInt.
ghost use Rattle.std.specs.Prelude.{◌≡◌, ◌+◌, ◌≤◌, ◌<◌, length, drop};
ghost use Rattle.buffer.specs.Store.{written};
ghost use Rattle.wire.specs.Varuint.{told, refusal_of, before, groups, varuint, varuint_bytes};

use crate::little::wide;
use constants::refusal::Refusal;

// The top bit, which is set on all bytes but the last.
const CONTINUATION: u64 = 128;

// A group has seven bits, so that it is below BASE and weighs BASE times what the group before it weighs.
const BASE: u64 = 128;

// The groups between the first and the tenth.
const BEFORE_LAST: usize = 8;

// The tenth group is below it: nine groups have 63 of the 64 bits.
const TENTH_LIMIT: u64 = 2;

// A number that was read, and the place after it.
#[derive(Clone, Copy, Debug, PartialEq, Eq)]
pub struct Past {
    pub value: u64,
    pub next: usize,
}

// Why no number was read.
#[derive(Clone, Copy, Debug, PartialEq, Eq)]
pub enum VarUIntError {
    // The bytes end before the last group.
    Cut,
    // A last byte of 0 after others, or a tenth byte above 1.
    Malformed,
}

// Its number as a refusal, where a cut VarUInt is one.
impl From<VarUIntError> for Refusal {
    ghost from_gives = { λ error refusal. refusal ≡ refusal_of error };

    fn from(error: VarUIntError) -> Refusal {
        match error {
            VarUIntError::Cut => Refusal::Cut,
            VarUIntError::Malformed => Refusal::Varuint,
        }
    }
}

// The groups after a first one of the value `first`, from at on.
fn read_more(s: &[u8], at: usize, first: u64) -> Result<Past, VarUIntError>
    requires { first < 128 }
    ensures { told result ≡ before first (groups 9 (drop at s.now) at) }
{
    let mut value = first;
    let mut weight = BASE;
    for i in 0..BEFORE_LAST {
        if s.len() <= at + i {
            return Err(VarUIntError::Cut);
        }
        let b = wide(s[at + i]);
        if b < CONTINUATION {
            if b == 0 {
                return Err(VarUIntError::Malformed);
            }
            return Ok(Past {
                value: value + weight * b,
                next: at + i + 1,
            });
        }
        value += weight * (b - CONTINUATION);
        weight *= BASE;
    }
    let last = at + BEFORE_LAST;
    if s.len() <= last {
        return Err(VarUIntError::Cut);
    }
    let b = wide(s[last]);
    if b < TENTH_LIMIT {
        if b == 0 {
            return Err(VarUIntError::Malformed);
        }
        return Ok(Past {
            value: value + weight * b,
            next: last + 1,
        });
    }
    Err(VarUIntError::Malformed)
}

// The VarUInt at a place. Most are a single byte, which is answered at once.
pub fn read(s: &[u8], at: usize) -> Result<Past, VarUIntError>
    ensures { told result ≡ varuint s.now at }
{
    if s.len() <= at {
        return Err(VarUIntError::Cut);
    }
    let b = wide(s[at]);
    if b < CONTINUATION {
        return Ok(Past {
            value: b,
            next: at + 1,
        });
    }
    read_more(s, at + 1, b - CONTINUATION)
}

// The VarUInt of x into d from at on; the place after it. Its loop and that of `size` count nothing: they go by what is left of the number.
pub fn write(d: &mut [u8], at: usize, x: u64) -> usize
    requires { at + length (varuint_bytes x) ≤ length d.old }
    ensures { (result ≡ at + length (varuint_bytes x)) × (d.new ≡ written d.old at (varuint_bytes x)) }
{
    let mut y = x;
    let mut i = at;
    while BASE <= y {
        d[i] = (y % BASE + CONTINUATION) as u8;
        y = y / BASE;
        i += 1;
    }
    d[i] = y as u8;
    i + 1
}

// The length of the VarUInt of x.
pub fn size(x: u64) -> usize
    ensures { result ≡ length (varuint_bytes x) }
{
    let mut y = x;
    let mut n = 1;
    while BASE <= y {
        y = y / BASE;
        n += 1;
    }
    n
}
