// Whether a record is good, and whether correlations differ.
ghost use Rattle.std.specs.Prelude.{◌≡◌, true, false, ◌&&◌, ◌<◌, Some, None, IfSome, IfNone};
ghost use Rattle.schema.specs.File.{table_of};
ghost use Rattle.calls.specs.Forms.{table_one};
ghost use Rattle.calls.specs.Slots.{good_call, contains, distinct};
ghost use Rattle.connection.specs.Flags.{flag_of_number};

use crate::call_record::{is_good_open, is_zero};
use crate::forms::{ROWS, row_in};
use calls::{Call, FormRow};
use table::good::Schema;
use table::marks::Marks;
use table::product::{mixed, wrapping_mul};

// Whether the number is one of the slice.
fn contains(ids: &[u64], id: u64) -> bool
    ensures { result ≡ contains id ids.now }
{
    let mut found = false;
    for other in ids {
        found = found | (*other == id);
    }
    found
}

// Whether the number is one of the slice, which is looked through only where the number's flag is taken.
fn contains_where(taken: bool, ids: &[u64], id: u64) -> bool
    ensures { result ≡ (taken && contains id ids.now) }
{
    if taken { contains(ids, id) } else { false }
}

// What a number is multiplied by: 2^64 divided by the golden ratio.
const FACTOR: u64 = 0x9E37_79B9_7F4A_7C15;

// A flag is the top 10 of 64 bits.
const FLAG_SHIFT: u64 = 54;

// The flag of a number, one of 1,024: the top bits of a product, by which those of ordinary tables differ, or of the number mixed.
#[tactic(auto, using(crate::proofs::Distinct::flag_below), unfolding(crate::specs::Flags::flag_of_number))]
fn flag_of(id: u64, mixing: bool) -> usize
    ensures { (result ≡ flag_of_number mixing id) × (result < 1024) }
{
    if mixing {
        return (mixed(id) >> FLAG_SHIFT) as usize;
    }
    (wrapping_mul(id, FACTOR) >> FLAG_SHIFT) as usize
}

// Flags of numbers.
const FLAGS: usize = 1024;

// Whether no two of the slice are equal, where a number is compared with the later ones only if one of them has its flag. None where too many are:
// that is abandoned, unless the flags are of numbers mixed.
fn distinct_by_flags(ids: &[u64], mixing: bool) -> Option<bool>
    ensures value { IfSome result (λ found. found ≡ distinct ids.now) }
    ensures abandoned { IfNone result (mixing ≡ false) }
{
    let mut marks = Marks::<FLAGS>::new(mixing);
    for i in (0..ids.len()).rev() {
        let id = ids[i];
        let taken = marks.take(flag_of(id, mixing))?;
        if contains_where(taken, &ids[i + 1..], id) {
            return Some(false);
        }
    }
    Some(true)
}

// Whether no two of the slice are equal.
pub fn distinct(ids: &[u64]) -> bool
    ensures { result ≡ distinct ids.now }
{
    match distinct_by_flags(ids, false) {
        Some(distinct) => distinct,
        None => distinct_by_flags(ids, true) == Some(true),
    }
}

// Whether a record is good. The forms' table is a parameter, so that a loop lays it out once.
#[tactic(auto, unfolding(calls::specs::Slots::good_call))]
pub fn is_good_call(call: Call, schema: &Schema, table: &[FormRow; ROWS]) -> bool
    requires { table.now ≡ table_one }
    ensures { result ≡ good_call (table_of schema.now.bytes.now) call }
{
    if call.open {
        let m = schema.method(call.method as usize);
        is_good_open(call, schema.method_count(), row_in(table, m.form))
    } else {
        is_zero(call)
    }
}
