// SipHash-1-3 with the key zero: one round for each word of eight bytes, three at the end.
ghost use Rattle.std.specs.Prelude.{◌≡◌, ◌+◌, ◌%◌, ◌<◌, ◌≤◌, length};
ghost use Rattle.buffer.specs.Span.{span};
ghost use Rattle.walks.specs.Siphash.{turned, sip_round, compressed, finalized, last_word, siphash};

use std::num::wrapping_add_usize;
use wire::little::number;

// Bytes of a word, and bits.
pub const WORD: usize = 8;

const WORD_BITS: usize = 64;

// Where the state starts: "somepseudorandomlygeneratedbytes", eight letters a word.
const START_0: usize = 0x736f6d6570736575;

const START_1: usize = 0x646f72616e646f6d;

const START_2: usize = 0x6c7967656e657261;

const START_3: usize = 0x7465646279746573;

// By how many bits a round turns its second and fourth word, first and last; and the two others, each once.
const FIRST_TURN_1: usize = 13;

const FIRST_TURN_3: usize = 16;

const LAST_TURN_1: usize = 17;

const LAST_TURN_3: usize = 21;

const HALF_TURN: usize = 32;

// What the third word takes before the rounds at the end.
const FINAL_MARK: usize = 255;

// Bits below the top byte of a word.
const TOP_BYTE: usize = 56;

// The four words of the state.
#[derive(Clone, Copy)]
struct SipState {
    v0: usize,
    v1: usize,
    v2: usize,
    v3: usize,
}

// x turned left by k bits.
fn rotate_left(x: usize, k: usize) -> usize
    requires { (0 < k) × (k < 64) }
    ensures { result ≡ turned x k }
{
    (x << k) | (x >> (WORD_BITS - k))
}

// One round.
fn sip_round(v: SipState) -> SipState
    ensures { result ≡ sip_round v }
{
    let a = wrapping_add_usize(v.v0, v.v1);
    let b = rotate_left(v.v1, FIRST_TURN_1) ^ a;
    let c = wrapping_add_usize(v.v2, v.v3);
    let d = rotate_left(v.v3, FIRST_TURN_3) ^ c;
    let e = wrapping_add_usize(rotate_left(a, HALF_TURN), d);
    let f = wrapping_add_usize(c, b);
    SipState {
        v0: e,
        v1: rotate_left(b, LAST_TURN_1) ^ f,
        v2: rotate_left(f, HALF_TURN),
        v3: rotate_left(d, LAST_TURN_3) ^ e,
    }
}

// The state with one word more.
fn compress(v: SipState, m: usize) -> SipState
    ensures { result ≡ compressed v m }
{
    let r = sip_round(SipState {
        v0: v.v0,
        v1: v.v1,
        v2: v.v2,
        v3: v.v3 ^ m,
    });
    SipState {
        v0: r.v0 ^ m,
        v1: r.v1,
        v2: r.v2,
        v3: r.v3,
    }
}

// The number that the state ends in.
fn finalize(v: SipState) -> usize
    ensures { result ≡ finalized v }
{
    let first = sip_round(SipState {
        v0: v.v0,
        v1: v.v1,
        v2: v.v2 ^ FINAL_MARK,
        v3: v.v3,
    });
    let r = sip_round(sip_round(first));
    (r.v0 ^ r.v1) ^ (r.v2 ^ r.v3)
}

// The bytes past the last whole word of n bytes, and n in the top byte.
pub fn last_word(s: &[u8], place: usize, n: usize) -> usize
    requires { place + n % 8 ≤ length s.now }
    ensures { result ≡ last_word (span s.now place (n % 8)) n }
{
    number(s, place, n % WORD) as usize | (n << TOP_BYTE)
}

// The hash of the n bytes at a place.
pub fn hash(s: &[u8], place: usize, n: usize) -> usize
    requires { place + n ≤ length s.now }
    ensures { result ≡ siphash (span s.now place n) }
{
    let words = n / WORD;
    let mut v = SipState {
        v0: START_0,
        v1: START_1,
        v2: START_2,
        v3: START_3,
    };
    for i in 0..words {
        v = compress(v, number(s, place + WORD * i, WORD) as usize);
    }
    finalize(compress(v, last_word(s, place + WORD * words, n)))
}
