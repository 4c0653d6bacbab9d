// Values read without recursion: contents, counts and presence bits, and arrays of what holds nothing but scalars, strings and bytes.
#![tactic(auto)]

pub mod added;
pub mod elements;
pub mod keys;
pub mod leaf;
pub mod maps;
pub mod sheet;

ghost use Rattle.std.specs.Prelude.{◌≤◌, length};

use table::good::Schema;

// What a walk reads: a payload by a schema that is good. A walk that does not judge reads what another has judged.
#[derive(Clone, Copy)]
pub struct Source<'a> {
    pub schema: Schema<'a>,
    pub payload: &'a [u8],
    pub judging: bool,
    ghost short: { length payload.now ≤ 16384 },
}

// What a walker read: the key comparisons due in it, and the place and the row after it.
// The 32-bit number comes first: two 64-bit ones side by side would be copied as one, which waits for both.
#[derive(Clone, Copy)]
pub struct Past {
    pub due: u32,
    pub next: usize,
    pub row: usize,
}
