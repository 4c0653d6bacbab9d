// UTF-8 by RFC 3629, over the table of its section 4.
#![tactic(auto)]

ghost use Rattle.std.specs.Prelude.{◌≡◌, ℕ, true, false, ◌+◌, ◌<◌, ◌≤◌, length, take, drop};
ghost use mathlib.Core.List.{[], ◌∷◌, Memᴰ};
ghost use Rattle.std.proofs.Math.Seq.{slice};
ghost use Rattle.utf8.specs.Utf8.{rows, row_at, In, is_char, lead_of, next, utf8, ascii, two_byte_chars};

use wire::little::number;

// A range of bytes: the lowest and the highest.
#[derive(Clone, Copy)]
pub struct Range(pub u8, pub u8);

// A row of the table: how many bytes a character has, and the range of each, the lead byte's first. EMPTY stands for a byte that it has not.
#[derive(Clone, Copy)]
pub struct Row(pub u8, pub Range, pub Range, pub Range, pub Range);

// UTF8-tail = %x80-BF
const TAIL: Range = Range(0x80, 0xBF);

// No byte is in it.
const EMPTY: Range = Range(0x01, 0x00);

// UTF8-1 = %x00-7F
const UTF8_1: Row = Row(1, Range(0x00, 0x7F), EMPTY, EMPTY, EMPTY);

// UTF8-2 = %xC2-DF UTF8-tail
const UTF8_2: Row = Row(2, Range(0xC2, 0xDF), TAIL, EMPTY, EMPTY);

const ROW_COUNT: usize = 9;

const LAST_ROW: usize = ROW_COUNT - 1;

const ROWS: [Row; ROW_COUNT] = [
    UTF8_1,
    UTF8_2,
    // UTF8-3 = %xE0 %xA0-BF UTF8-tail /
    Row(3, Range(0xE0, 0xE0), Range(0xA0, 0xBF), TAIL, EMPTY),
    //          %xE1-EC 2( UTF8-tail ) /
    Row(3, Range(0xE1, 0xEC), TAIL, TAIL, EMPTY),
    //          %xED %x80-9F UTF8-tail /
    Row(3, Range(0xED, 0xED), Range(0x80, 0x9F), TAIL, EMPTY),
    //          %xEE-EF 2( UTF8-tail )
    Row(3, Range(0xEE, 0xEF), TAIL, TAIL, EMPTY),
    // UTF8-4 = %xF0 %x90-BF 2( UTF8-tail ) /
    Row(4, Range(0xF0, 0xF0), Range(0x90, 0xBF), TAIL, TAIL),
    //          %xF1-F3 3( UTF8-tail ) /
    Row(4, Range(0xF1, 0xF3), TAIL, TAIL, TAIL),
    //          %xF4 %x80-8F 2( UTF8-tail )
    Row(4, Range(0xF4, 0xF4), Range(0x80, 0x8F), TAIL, TAIL),
];

// Whether a byte is in a range.
fn within(g: Range, b: u8) -> bool
    ensures { result ≡ In g b }
{
    (g.0 <= b) & (b <= g.1)
}

// The row at a place of the table. It is a function of its own, so that the prover follows the nine rows once.
fn row_at(k: usize) -> Row
    requires { k < 9 }
    ensures { result ≡ row_at k }
{
    ROWS[k]
}

// The row that has b as a lead byte; where none has it, the last row.
fn row_of(b: u8) -> Row
    ensures { Memᴰ result rows × (lead_of b (result ∷ []) ≡ next b) }
{
    let mut row = UTF8_1;
    for k in 0..LAST_ROW {
        if within(row.1, b) {
            return row;
        }
        row = row_at(k + 1);
    }
    row
}

// Whether the bytes from a place on are a character of the row, each byte in its range.
fn is_char(s: &[u8], at: usize, row: Row) -> bool
    requires { ((1 ≤ row.0) × (row.0 ≤ 4)) × (at + row.0 ≤ length s.now) }
    ensures { result ≡ is_char row (take row.0 (drop at s.now)) }
{
    let one = within(row.1, s[at]);
    if row.0 == 1 {
        return one;
    }
    let two = one & within(row.2, s[at + 1]);
    if row.0 == 2 {
        return two;
    }
    let three = two & within(row.3, s[at + 2]);
    if row.0 == 3 {
        return three;
    }
    three & within(row.4, s[at + 3])
}

// From a place on, past characters of one row.
fn skip_row(s: &[u8], from: usize, to: usize, row: Row) -> usize
    requires { ((from ≤ to) × (to ≤ length s.now)) × Memᴰ row rows }
    ensures { ((from ≤ result) × (result ≤ to)) × (utf8 (slice result to s.now) ≡ utf8 (slice from to s.now)) × (result ≡ from → is_char row (take row.0 (slice from to s.now)) ≡ false) }
{
    let n = row.0 as usize;
    let mut i = from;
    while n <= to - i {
        if !is_char(s, i, row) {
            return i;
        }
        i += n;
    }
    i
}

// Bytes of a word, which are read as one number, and of half a word.
const WORD: usize = 8;

const HALF: usize = WORD / 2;

// The top bit of each byte of a word, and of half a word.
const TOP_BITS: u64 = 0x8080_8080_8080_8080;

const HALF_TOP_BITS: u64 = 0x8080_8080;

// Whether the eight bytes from at are characters of the row UTF8-1: no byte's top bit is set.
fn ascii_word(s: &[u8], at: usize) -> bool
    requires { at + 8 ≤ length s.now }
    ensures { result ≡ ascii (take 8 (drop at s.now)) }
{
    number(s, at, WORD) & TOP_BITS == 0
}

// The same of four bytes.
// One generic over both would take the type, its top bits and its reader for two short bodies.
fn ascii_half(s: &[u8], at: usize) -> bool
    requires { at + 4 ≤ length s.now }
    ensures { result ≡ ascii (take 4 (drop at s.now)) }
{
    number(s, at, HALF) & HALF_TOP_BITS == 0
}

// Words of a block, and its bytes.
const BLOCK_WORDS: usize = 8;

const BLOCK: usize = BLOCK_WORDS * WORD;

// Whether a block's words are, word by word.
fn ascii_block(s: &[u8], at: usize) -> bool
    requires { at + 64 ≤ length s.now }
    ensures { result ≡ ascii (take 64 (drop at s.now)) }
{
    for k in 0..BLOCK_WORDS {
        if !ascii_word(s, at + WORD * k) {
            return false;
        }
    }
    true
}

// A word of four characters of the row UTF8-2, each 110xxxxx 10xxxxxx: where the fixed bits stand, and what they are.
const SHAPE_BITS: u64 = 0xC0E0_C0E0_C0E0_C0E0;

const SHAPE: u64 = 0x80C0_80C0_80C0_80C0;

// A lead byte's other bits but the lowest: all are 0 in C0 and C1, which are too low. With LEAD_ADDEND they carry into LEAD_CARRY unless all are 0.
const LEAD_BITS: u64 = 0x001E_001E_001E_001E;

const LEAD_ADDEND: u64 = 0x007E_007E_007E_007E;

const LEAD_CARRY: u64 = 0x0080_0080_0080_0080;

// Whether the eight bytes from at are four characters of the row UTF8-2: they have the shape, and no lead byte is too low.
fn pair_word(s: &[u8], at: usize) -> bool
    requires { at + 8 ≤ length s.now }
    ensures { result ≡ two_byte_chars (take 8 (drop at s.now)) }
{
    let w = number(s, at, WORD);
    let low = (w & LEAD_BITS) + LEAD_ADDEND;
    (w & SHAPE_BITS == SHAPE) & (low & LEAD_CARRY == LEAD_CARRY)
}

// Parts of so many bytes, by a test that they are whole characters. A loop past them, as those past characters below, stops at what it finds: it counts nothing.
trait Part {
    ghost BYTES: { ℕ };

    const BYTES: usize;

    // Whether the part at a place is whole characters.
    fn is_whole(s: &[u8], at: usize) -> bool
        requires { at + BYTES ≤ length s.now }
        ensures { (0 < BYTES) × (result ≡ true → (to : ℕ) → at + BYTES ≤ to → utf8 (slice (at + BYTES) to s.now) ≡ utf8 (slice at to s.now)) };

    // From a place on, past such parts.
    final fn skip(s: &[u8], from: usize, to: usize) -> usize
        requires { (from ≤ to) × (to ≤ length s.now) }
        ensures { ((from ≤ result) × (result ≤ to)) × (utf8 (slice result to s.now) ≡ utf8 (slice from to s.now)) }
    {
        let mut i = from;
        while Self::BYTES <= to - i {
            if !Self::is_whole(s, i) {
                return i;
            }
            i += Self::BYTES;
        }
        i
    }
}

// Four characters of one byte.
struct AsciiHalf;

impl Part for AsciiHalf {
    ghost BYTES = { 4 };

    const BYTES: usize = HALF;

    fn is_whole(s: &[u8], at: usize) -> bool {
        ascii_half(s, at)
    }
}

// Eight of them.
struct AsciiWord;

impl Part for AsciiWord {
    ghost BYTES = { 8 };

    const BYTES: usize = WORD;

    fn is_whole(s: &[u8], at: usize) -> bool {
        ascii_word(s, at)
    }
}

// A block of eight such words, for long strings.
struct AsciiBlock;

impl Part for AsciiBlock {
    ghost BYTES = { 64 };

    const BYTES: usize = BLOCK;

    fn is_whole(s: &[u8], at: usize) -> bool {
        ascii_block(s, at)
    }
}

// Four characters of the row UTF8-2.
struct PairWord;

impl Part for PairWord {
    ghost BYTES = { 8 };

    const BYTES: usize = WORD;

    fn is_whole(s: &[u8], at: usize) -> bool {
        pair_word(s, at)
    }
}

// Bytes of a character of the row UTF8-2.
const PAIR: usize = 2;

// From a place on, past characters of the row UTF8-2.
fn skip_pairs(s: &[u8], from: usize, to: usize) -> usize
    requires { (from ≤ to) × (to ≤ length s.now) }
    ensures { ((from ≤ result) × (result ≤ to)) × (utf8 (slice result to s.now) ≡ utf8 (slice from to s.now)) }
{
    let row = UTF8_2;
    let mut i = PairWord::skip(s, from, to);
    while PAIR <= to - i {
        if !(within(row.1, s[i]) & within(row.2, s[i + 1])) {
            return i;
        }
        i += PAIR;
    }
    i
}

// From a place on, past characters of the row that has the byte there; it stays at the place only where the bytes are not UTF-8. Two-byte characters are tried before the table is searched.
fn skip_run(s: &[u8], from: usize, to: usize) -> usize
    requires { (from < to) × (to ≤ length s.now) }
    ensures { ((from ≤ result) × (result ≤ to)) × (utf8 (slice result to s.now) ≡ utf8 (slice from to s.now)) × (result ≡ from → utf8 (slice from to s.now) ≡ false) }
{
    let end = skip_pairs(s, from, to);
    if end != from {
        return end;
    }
    skip_row(s, from, to, row_of(s[from]))
}

// From a place on, past characters of one byte.
fn skip_ascii(s: &[u8], from: usize, to: usize) -> usize
    requires { (from ≤ to) × (to ≤ length s.now) }
    ensures { ((from ≤ result) × (result ≤ to)) × (utf8 (slice result to s.now) ≡ utf8 (slice from to s.now)) }
{
    let mut i = AsciiBlock::skip(s, from, to);
    i = AsciiWord::skip(s, i, to);
    i = AsciiHalf::skip(s, i, to);
    while i < to {
        if !within(UTF8_1.1, s[i]) {
            return i;
        }
        i += 1;
    }
    i
}

// Whether the bytes from `from` up to `to` are UTF-8: run by run of characters of one row, those of one byte by words.
fn valid_runs(s: &[u8], from: usize, to: usize) -> bool
    requires { (from ≤ to) × (to ≤ length s.now) }
    ensures { result ≡ utf8 (slice from to s.now) }
{
    let mut i = from;
    while i < to {
        if within(UTF8_1.1, s[i]) {
            i = AsciiWord::skip(s, i + 1, to);
        } else {
            let end = skip_run(s, i, to);
            if end == i {
                return false;
            }
            i = end;
        }
    }
    true
}

// Whether the bytes from `from` up to `to` are UTF-8. Most are ASCII to the end, which asks for no more than the first loop.
pub fn valid(s: &[u8], from: usize, to: usize) -> bool
    requires { (from ≤ to) × (to ≤ length s.now) }
    ensures { result ≡ utf8 (slice from to s.now) }
{
    valid_runs(s, skip_ascii(s, from, to), to)
}
