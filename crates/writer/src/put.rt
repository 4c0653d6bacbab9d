// Bytes put into the output, each where the output has a place for it. The functions answer the place after them, and 16,385 for every place above 16,384.
ghost use Rattle.std.specs.Prelude.{◌≡◌, ◌+◌, ◌≤◌, ◌<◌, length};
ghost use Rattle.buffer.specs.Span.{span};
ghost use Rattle.wire.specs.Little.{bytes};
ghost use Rattle.wire.specs.Varuint.{varuint_bytes};
ghost use Rattle.value.specs.Spell.{leaf_bytes};
ghost use Rattle.writer.specs.Emit.{cap, PutAt, length_bytes};
ghost use Rattle.walks.specs.Shape.{leaf_shape};

use buffer::put_byte;
use constants::kind::Kind;
use constants::limit;

// One byte more than a payload may have: what is longer counts as this.
const OVER: usize = limit::PAYLOAD + 1;

// What the seven bits of a byte of a VarUInt count up to; the eighth says that another byte follows.
const GROUP: u64 = 128;

// How many numbers a byte has.
const BYTE: u64 = 256;

// The place n bytes further, and 16,385 for every place above 16,384.
fn further(pos: usize, n: usize) -> usize
    requires { pos ≤ 16385 }
    ensures { (result ≡ cap (pos + n)) × (result ≤ 16385) }
{
    if OVER - pos <= n { OVER } else { pos + n }
}

// The VarUInt of x.
pub fn put_number(out: &mut [u8], pos: usize, x: u64) -> usize
    requires { pos ≤ 16385 }
    ensures { PutAt out.old pos (varuint_bytes x) result out.new }
{
    let mut y = x;
    let mut at = pos;
    // How many groups x has is known only when the last is put.
    while GROUP <= y {
        put_byte(out, at, (y % GROUP + GROUP) as u8);
        y = y / GROUP;
        at = at + 1;
    }
    put_byte(out, at, y as u8);
    further(pos, at + 1 - pos)
}

// The n lowest bytes of x.
pub fn put_bits(out: &mut [u8], pos: usize, n: usize, x: u64) -> usize
    requires { (pos ≤ 16385) × (n ≤ 8) }
    ensures { PutAt out.old pos (bytes n x) result out.new }
{
    let mut y = x;
    for i in 0..n {
        put_byte(out, pos + i, (y % BYTE) as u8);
        y = y / BYTE;
    }
    further(pos, n)
}

// The n bytes of the source at a place.
pub fn put_span(out: &mut [u8], pos: usize, source: &[u8], from: usize, n: usize) -> usize
    requires { (pos ≤ 16385) × (from + n ≤ length source.now) }
    ensures { PutAt out.old pos (span source.now from n) result out.new }
{
    buffer::put_span(out, pos, source, from, n);
    further(pos, n)
}

// What stands before a content of n bytes: the length, where it is a string or bytes.
fn put_length(out: &mut [u8], pos: usize, kind: usize, n: usize) -> usize
    requires { pos ≤ 16385 }
    ensures { PutAt out.old pos (length_bytes kind n) result out.new }
{
    if kind < Kind::String as usize {
        return pos;
    }
    put_number(out, pos, n as u64)
}

// A value of a kind from 1 to 13 with the n bytes of the source at a place: a string or bytes has its length in front.
pub fn put_content(
    out: &mut [u8],
    pos: usize,
    kind: usize,
    source: &[u8],
    from: usize,
    n: usize,
) -> usize
    requires { (pos ≤ 16385) × (length out.old ≤ 16384) × (from + n ≤ length source.now) }
    ensures { PutAt out.old pos (leaf_bytes (leaf_shape kind) (span source.now from n)) result out.new }
{
    let start = put_length(out, pos, kind, n);
    put_span(out, start, source, from, n)
}
