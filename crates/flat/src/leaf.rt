// A value's own bytes: counts, contents of leaves, and presence bits. A leaf is a value of a kind that holds no other: a scalar, a string or bytes.
ghost use Rattle.std.specs.Prelude.{◌≡◌, true, false, ◌+◌, ◌≤◌, ◌<◌, length, get_or, IfErr};
ghost use Rattle.std.specs.Int.Count.{ones};
ghost use Rattle.buffer.specs.Span.{span};
ghost use Rattle.utf8.specs.Utf8.{utf8};
ghost use Rattle.parse.specs.Reader.{cursor_at, Accepted, count};
ghost use Rattle.schema.specs.Table.{scalar, text};
ghost use Rattle.schema.specs.File.{table_of};
ghost use Rattle.schema.specs.Check.{IsGood};
ghost use Rattle.value.specs.Read.{own, bitmap};
ghost use Rattle.walks.specs.Shape.{leaf_shape, fields_from};
ghost use Rattle.flat.specs.Leaf.{CountRead, Uncounted, Spanned, Headed};
ghost use Rattle.flat.specs.Told.{told_count, told_span, told_head};

use constants::kind::Kind;
use constants::limit;
use constants::refusal::{Refusal, Refused};
use table::kind::width_of;
use walks::is_complete;
use wire::{bitmap, varuint};

// A count and where what it counts starts.
#[derive(Clone, Copy)]
pub struct Counted {
    pub n: usize,
    pub start: usize,
}

// Where a content starts and ends.
#[derive(Clone, Copy)]
pub struct Extent {
    pub from: usize,
    pub to: usize,
}

// A bitmap's word, the known fields' bits of it and their count, the number of unknown bits set, and the place after it.
#[derive(Clone, Copy)]
pub struct PresenceBits {
    pub word: u64,
    pub known: u64,
    pub ones: usize,
    pub unknown: usize,
    pub start: usize,
}

// A count of what takes at least `least` bytes each; a refusal is at its own place.
pub fn read_count(p: &[u8], at: usize, least: usize) -> Result<Counted, Refused>
    requires { (length p.now ≤ 16384) × (0 < least) × (least ≤ 2) }
    ensures told { CountRead p.now at least (count least (cursor_at p.now at)) (told_count result) }
    ensures place { IfErr result (λ e. e.place ≡ at) }
{
    let size = match varuint::read(p, at) {
        Ok(size) => size,
        Err(error) => return Refusal::from(error).at(at),
    };
    let rest = p.len() - size.next;
    if (rest as u64) < size.value {
        return Refusal::Cut.at(at);
    }
    let n = size.value as usize;
    if rest < least * n {
        return Refusal::Cut.at(at);
    }
    Ok(Counted {
        n,
        start: size.next,
    })
}

// The byte at a place.
fn byte_at(s: &[u8], i: usize) -> usize
    requires { i < length s.now }
    ensures { result ≡ get_or s.now i 0 }
{
    s[i] as usize
}

// The count of a map, whose pairs take at least two bytes each. Up to 64 it is a single byte, which is answered at once.
pub fn map_count(p: &[u8], at: usize) -> Result<Counted, Refused>
    requires { length p.now ≤ 16384 }
    ensures told { CountRead p.now at 2 (count 2 (cursor_at p.now at)) (told_count result) }
    ensures place { IfErr result (λ e. e.place ≡ at) }
{
    if at < p.len() {
        let n = byte_at(p, at);
        if n <= limit::PAIRS {
            if 2 * n <= p.len() - at - 1 {
                return Ok(Counted { n, start: at + 1 });
            }
        }
    }
    read_count(p, at, 2)
}

// Whether a value of a kind at a place is a map without pairs, whose count is the byte 0.
pub fn is_empty_map(p: &[u8], kind: u32, at: usize) -> bool
    ensures { result ≡ true → (kind ≡ 15) × Uncounted p.now at (count 2 (cursor_at p.now at)) }
{
    if kind != Kind::Map as u32 {
        return false;
    }
    if p.len() <= at {
        return false;
    }
    byte_at(p, at) == 0
}

// A scalar's content.
fn scalar(p: &[u8], kind: usize, at: usize) -> Result<Extent, Refused>
    requires { (at ≤ length p.now) × (0 < kind) × (kind < 12) }
    ensures { Spanned p.now at (own (scalar kind) (cursor_at p.now at)) (told_span result) }
{
    let w = width_of(kind);
    if p.len() - at < w {
        return Refusal::Cut.at(at);
    }
    if kind == Kind::Bool as usize {
        if 1 < p[at] {
            return Refusal::Bool.at(at);
        }
    }
    Ok(Extent {
        from: at,
        to: at + w,
    })
}

// Whether a content is one of its kind: a string's is UTF-8. A walk that does not judge knows that it is.
fn is_of_kind(source: &[u8], kind: usize, from: usize, n: usize, judging: bool) -> bool
    requires { (from + n ≤ length source.now) × (judging ≡ false → kind ≡ 12 → utf8 (span source.now from n) ≡ true) }
    ensures { (result ≡ true → kind ≡ 12 → utf8 (span source.now from n) ≡ true) × (result ≡ false → (kind ≡ 12) × (utf8 (span source.now from n) ≡ false)) }
{
    if kind != Kind::String as usize {
        return true;
    }
    if judging {
        return utf8::valid(source, from, from + n);
    }
    true
}

// The content of a string or of bytes.
fn text(p: &[u8], kind: usize, at: usize, judging: bool) -> Result<Extent, Refused>
    requires { (length p.now ≤ 16384) × (judging ≡ false → Accepted (own (text kind) (cursor_at p.now at))) }
    ensures { Spanned p.now at (own (text kind) (cursor_at p.now at)) (told_span result) }
{
    let count = read_count(p, at, 1)?;
    let to = count.start + count.n;
    if !is_of_kind(p, kind, count.start, count.n, judging) {
        return Refusal::Utf8.at(count.start);
    }
    Ok(Extent {
        from: count.start,
        to,
    })
}

// The content of a scalar, a string or bytes, of a kind from 1 to 13.
pub fn content(p: &[u8], kind: usize, at: usize, judging: bool) -> Result<Extent, Refused>
    requires { (length p.now ≤ 16384) × (at ≤ length p.now) × (0 < kind) × (kind < 14) × (judging ≡ false → Accepted (own (leaf_shape kind) (cursor_at p.now at))) }
    ensures { Spanned p.now at (own (leaf_shape kind) (cursor_at p.now at)) (told_span result) }
{
    if kind < Kind::String as usize {
        scalar(p, kind, at)
    } else {
        text(p, kind, at, judging)
    }
}

// How many bits are set.
pub fn ones_in(x: u64) -> usize
    ensures { (result ≡ ones x) × (result ≤ 64) }
{
    u64::count_ones(x) as usize
}

// How many fields of a type are shown.
pub fn shown_of(shown: &[u8; limit::TYPES], ty: u32) -> usize
    requires { ty < 256 }
    ensures { result ≡ get_or shown.now ty 0 }
{
    byte_at(shown, ty as usize)
}

// The bitmap of a struct that has n fields from the first on; a refusal is at its own place.
pub fn presence(
    s: &[u8],
    p: &[u8],
    first: usize,
    n: usize,
    at: usize,
    judging: bool,
) -> Result<PresenceBits, Refused>
    requires { IsGood s.now × (0 < n) × (n ≤ 64) × (first + n ≤ length (table_of s.now).fields) × (at ≤ length p.now) × (judging ≡ false → Accepted (bitmap (fields_from (table_of s.now) first n) (cursor_at p.now at))) }
    ensures told { Headed p.now at (fields_from (table_of s.now) first n) (bitmap (fields_from (table_of s.now) first n) (cursor_at p.now at)) (told_head result) }
    ensures place { IfErr result (λ e. e.place ≡ at) }
{
    let size = (n + bitmap::SPARE_BITS) / bitmap::BYTE_BITS;
    if p.len() - at < size {
        return Refusal::Cut.at(at);
    }
    let b = bitmap::read(p, at, n);
    if !is_complete(s, first, n, b.bits, judging) {
        return Refusal::AbsentField.at(at);
    }
    Ok(PresenceBits {
        word: b.bits,
        known: b.known,
        ones: b.ones as usize,
        unknown: b.unknown as usize,
        start: at + size,
    })
}
