// Little-endian numbers of 1 to 8 bytes, out of a slice and into one. The two widths that are read at once are a function each: nothing is generic over them, so a trait would be longer.
ghost use Rattle.std.specs.Prelude.{◌≡◌, ◌+◌, ◌*◌, ◌^◌, ◌≤◌, ◌<◌, length, take, drop};
ghost use Rattle.buffer.specs.Store.{written};
ghost use Rattle.wire.specs.Little.{little, twos, bytes};

// A byte is below BASE and weighs BASE times what the byte before it weighs.
const BASE: u64 = 256;

// A byte as a number of 64 bits. It stands for `as` and `from`, which do not say that it is below 256: the loops over groups and bytes go by that.
pub fn wide(x: u8) -> u64
    ensures { (result ≡ x) × (result < 256) }
{
    x as u64
}

// The number in the n bytes from at, least byte first.
pub fn number(s: &[u8], at: usize, n: usize) -> u64
    requires { (n ≤ 8) × (at + n ≤ length s.now) }
    ensures { result ≡ little (take n (drop at s.now)) }
{
    let mut r: u64 = 0;
    for i in (0..n).rev() {
        r = r * BASE + wide(s[at + i]);
    }
    r
}

// The number in the four bytes from at: `number` at this width, without a loop.
pub fn u32_at(s: &[u8], at: usize) -> u32
    requires { at + 4 ≤ length s.now }
    ensures { result ≡ little (take 4 (drop at s.now)) }
{
    u32::from_le_bytes([s[at], s[at + 1], s[at + 2], s[at + 3]])
}

// The number in the eight bytes from at, likewise.
pub fn u64_at(s: &[u8], at: usize) -> u64
    requires { at + 8 ≤ length s.now }
    ensures { result ≡ little (take 8 (drop at s.now)) }
{
    u64::from_le_bytes([
        s[at],
        s[at + 1],
        s[at + 2],
        s[at + 3],
        s[at + 4],
        s[at + 5],
        s[at + 6],
        s[at + 7],
    ])
}

// The number x by two's complement, at the width whose sign bit has the weight half.
pub fn signed(x: u64, half: u64) -> i64
    requires { (x < half + half) × (half ≤ 2 ^ 63) }
    ensures { result ≡ twos half x }
{
    if x < half {
        x as i64
    } else {
        -1 - ((half - 1 - (x - half)) as i64)
    }
}

// The n lowest bytes of x into d from at on, least byte first.
// It goes byte by byte, since n has no bound here: the library has eight.
pub fn store(d: &mut [u8], at: usize, n: usize, x: u64)
    requires { at + n ≤ length d.old }
    ensures { d.new ≡ written d.old at (bytes n x) }
{
    let mut rest = x;
    for i in 0..n {
        d[at + i] = (rest % BASE) as u8;
        rest /= BASE;
    }
}
