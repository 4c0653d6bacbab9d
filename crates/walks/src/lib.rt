// What the reader's and the writer's walks share: the test of a struct's presence bits, the bits that are required, and the keys of a map with their hash.
#![tactic(auto)]

pub mod key;
pub mod siphash;

ghost use Rattle.std.specs.Prelude.{◌≡◌, ◌+◌, ◌≤◌, true, false, length};
ghost use Rattle.std.specs.Int.Count.{count_trailing_zeros};
ghost use Rattle.schema.specs.File.{Laid, table_of};
ghost use Rattle.schema.specs.Check.{IsGood};
ghost use Rattle.value.specs.Read.{required_set};
ghost use Rattle.walks.specs.Shape.{fields_from};
ghost use Rattle.walks.specs.Required.{required_bit, Requires};

use schema::Layout;
use table::rows::field_row;

// Whether each of n fields from the first on has its bit or is optional. A walk that does not judge knows that it is so.
pub fn is_complete(s: &[u8], first: usize, n: usize, word: u64, judging: bool) -> bool
    requires { IsGood s.now × (first + n ≤ length (table_of s.now).fields) × (judging ≡ false → required_set (fields_from (table_of s.now) first n) word ≡ true) }
    ensures { result ≡ required_set (fields_from (table_of s.now) first n) word }
{
    if !judging {
        return true;
    }
    let mut bits = word;
    for i in first..first + n {
        let f = table::access::field(s, i);
        if !((f.optional == 1) | (bits % 2 == 1)) {
            return false;
        }
        bits = bits / 2;
    }
    true
}

// The bit of a field that is not optional.
fn bit_of(optional: u32) -> u64
    ensures { (result ≡ required_bit optional) × (result ≤ 1) }
{
    if optional == 1 {
        return 0;
    }
    1
}

// The bits of those of n fields from the first on that are not optional.
pub fn required_of(s: &[u8], l: Layout, first: usize, n: usize) -> u64
    requires { IsGood s.now × Laid s.now l × (n ≤ 64) × (first + n ≤ length (table_of s.now).fields) }
    ensures { Requires result (fields_from (table_of s.now) first n) }
{
    let mut required: u64 = 0;
    for i in (0..n).rev() {
        let f = field_row(s, l, first + i);
        required = 2 * required + bit_of(f.optional);
    }
    required
}

// How many bits stand below the lowest one that is set.
pub fn zeros_in(bits: u64) -> usize
    ensures { (result ≡ count_trailing_zeros 64 bits) × (result ≤ 64) }
{
    u64::trailing_zeros(bits) as usize
}
