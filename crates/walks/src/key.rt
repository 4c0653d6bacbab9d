// The keys of a map, kept while its pairs are walked: their digests in the first half of a slice of numbers, where they stand in the second. The last
// four cells of the first half have 256 flags, each for the digests of one remainder: a key whose flag is not set is new, and needs no search.
// They stay in one slice: `is_repeated`, which docs/PROVING.md names, takes it so, and the walks lend it parts of arrays of three lengths.
ghost use Rattle.std.specs.Prelude.{◌≡◌, ℕ, ◌+◌, ◌/◌, ◌<◌, ◌≤◌, true, false, ◌∷◌, length};
ghost use Rattle.buffer.specs.Span.{span};
ghost use Rattle.value.specs.Read.{same, among};
ghost use Rattle.walks.specs.Keys.{word_of, digest, has_digest, key_at, keys_in, Flagged, KeptAt, Kept};

use crate::siphash::{WORD, hash, last_word};
use wire::little::number;

// Cells of flags in each half of the slice; those of the second are not used.
pub const FLAG_CELLS: usize = 4;

// The least digest of seven bytes.
const SEVEN_BYTES: usize = 0x0700_0000_0000_0000;

// The digests of one to seven bytes lie between these two.
const BELOW_DIGESTS: usize = 0x00FF_FFFF_FFFF_FFFF;

const ABOVE_DIGESTS: usize = 0x0800_0000_0000_0000;

// Flags of a cell.
const CELL_FLAGS: usize = 64;

// 2^32: a key is kept as its place times this, and its length.
const PLACE_WEIGHT: usize = 4294967296;

// The number of the n bytes at a place where n is eight. For more bytes it is the least digest of seven, which `digest_of` does not take for theirs: it hashes
// them.
fn word_at(s: &[u8], place: usize, n: usize) -> usize
    requires { place + n ≤ length s.now }
    ensures { result ≡ word_of (span s.now place n) }
{
    if n == WORD {
        return number(s, place, WORD) as usize;
    }
    SEVEN_BYTES
}

// The digest of the n bytes at a place: of fewer than eight their number with n in the top byte, of eight their number unless it is among the digests
// of one to seven or at their bounds, and of all others their hash. A walk that does not judge needs none, and gets 0.
fn digest_of(s: &[u8], place: usize, n: usize, judging: bool) -> usize
    requires { place + n ≤ length s.now }
    ensures { judging ≡ true → result ≡ digest (span s.now place n) }
{
    if !judging {
        return 0;
    }
    if n < WORD {
        return last_word(s, place, n);
    }
    // The two bounds are hashed as well: by a test of the top byte alone the compiler would load the eight bytes one by one.
    let x = word_at(s, place, n);
    if (x < BELOW_DIGESTS) | (ABOVE_DIGESTS < x) {
        return x;
    }
    hash(s, place, n)
}

// Whether d is one of the first n digests. All are looked at: a loop without a way out compares several at a time.
fn has_digest(keys: &[usize], n: usize, d: usize) -> bool
    requires { n ≤ length keys.now }
    ensures { result ≡ has_digest keys.now n d }
{
    let mut found = false;
    for kept in &keys[..n] {
        found = found | (*kept == d);
    }
    found
}

// Whether two spans have the same bytes.
fn is_same(s: &[u8], a: usize, n: usize, b: usize, m: usize) -> bool
    requires { (a + n ≤ length s.now) × (b + m ≤ length s.now) }
    ensures { result ≡ same (span s.now a n) (span s.now b m) }
{
    if n != m {
        return false;
    }
    for i in 0..n {
        if s[a + i] != s[b + i] {
            return false;
        }
    }
    true
}

// Whether the n bytes at a place, whose digest is d, are the content of key j.
fn is_key(s: &[u8], keys: &[usize], j: usize, place: usize, n: usize, d: usize) -> bool
    requires { (j < length keys.now / 2) × (place + n ≤ length s.now) × KeptAt s.now keys.now true j × (d ≡ digest (span s.now place n)) }
    ensures { result ≡ same (span s.now place n) (key_at s.now keys.now j) }
{
    if keys[j] != d {
        return false;
    }
    let x = keys[keys.len() / 2 + j];
    is_same(s, place, n, x / PLACE_WEIGHT, x % PLACE_WEIGHT)
}

// Whether the n bytes at a place, whose digest is d, are the content of one of the first held keys. A walk that does not judge knows that they are not.
fn is_among(
    s: &[u8],
    keys: &[usize],
    held: usize,
    place: usize,
    n: usize,
    d: usize,
    judging: bool,
) -> bool
    requires held_in_bounds { (held ≤ length keys.now / 2) × (place + n ≤ length s.now) × Kept s.now keys.now judging held }
    requires d_value { (judging ≡ true → d ≡ digest (span s.now place n)) × (judging ≡ false → among (span s.now place n) (keys_in s.now keys.now held) ≡ false) }
    ensures { result ≡ among (span s.now place n) (keys_in s.now keys.now held) }
{
    if !judging {
        return false;
    }
    if !has_digest(keys, held, d) {
        return false;
    }
    for j in (0..held).rev() {
        if is_key(s, keys, j, place, n, d) {
            return true;
        }
    }
    false
}

// No flag is set, so that the keys of another map need no search. One that is left set only costs time.
pub fn clear_flags(keys: &mut [usize])
    requires { 4 ≤ length keys.old / 2 }
    ensures { (d : ℕ) → Flagged keys.new d → ⊥ }
{
    let first = keys.len() / 2 - FLAG_CELLS;
    keys[first..first + FLAG_CELLS].fill(0);
}

// Whether the n bytes at a place are the content of one of the first i keys; they are kept as the next. A walk that does not judge knows that they are not.
pub fn is_repeated(
    s: &[u8],
    keys: &mut [usize],
    i: usize,
    place: usize,
    n: usize,
    judging: bool,
) -> bool
    requires i_in_bounds { (i + 4 < length keys.old / 2) × (place < 4294967296) × (n < 4294967296) × (place + n ≤ length s.now) × Kept s.now keys.old judging i }
    requires i_value { judging ≡ false → among (span s.now place n) (keys_in s.now keys.old i) ≡ false }
    ensures { (result ≡ among (span s.now place n) (keys_in s.now keys.old i))
        × (keys_in s.now keys.new (i + 1) ≡ span s.now place n ∷ keys_in s.now keys.old i)
        × Kept s.now keys.new judging (i + 1) }
{
    let half = keys.len() / 2;
    let d = digest_of(s, place, n, judging);
    keys[half + i] = place * PLACE_WEIGHT + n;
    keys[i] = d;
    let cell = half - FLAG_CELLS + d / CELL_FLAGS % FLAG_CELLS;
    let flags = keys[cell];
    if (flags >> (d % CELL_FLAGS)) % 2 == 0 {
        keys[cell] = flags | (1usize << (d % CELL_FLAGS));
        return false;
    }
    is_among(s, keys, i, place, n, d, judging)
}
