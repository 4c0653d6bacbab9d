// The check of a schema file: its shape, its counts, then each type row, field and method, the lowest at fault.
ghost use Rattle.std.specs.Prelude.{◌≡◌, ◌<◌, false, not, ◌||◌, cond, eqb, MatchOption};
ghost use Rattle.schema.specs.File.{table_of};
ghost use Rattle.schema.specs.Check.{plain_row, array_row, map_row, struct_row, good_row, good_field, is_struct, formed, find_among, is_missing, good_method, bad_row, bad_field, bad_method, checked_table, checked};
ghost use Rattle.table.specs.Flags.{flag_of};
ghost use Rattle.table.specs.Told.{told};

use crate::file::is_shaped;
use crate::marks::Marks;
use crate::product::{HALF, mixed, wrapping_mul};
use crate::rows::{Names, Sections};
use crate::search::lowest;
use constants::kind::Kind;
use constants::refusal::{Refusal, Refused};
use constants::{format, limit};
use schema::{Method, TypeRow};
use std::num::wrapping_add_u64;

fn is_plain(r: TypeRow) -> bool
    ensures { result ≡ plain_row r }
{
    ((Kind::Bool as u32 <= r.kind) & (r.kind <= Kind::Bytes as u32)) & ((r.a == 0) & (r.b == 0))
}

fn is_array(types: usize, r: TypeRow) -> bool
    ensures { result ≡ array_row types r }
{
    (r.kind == Kind::Array as u32) & (((r.a as usize) < types) & (r.b == 0))
}

fn is_map(types: usize, key: u32, r: TypeRow) -> bool
    ensures { result ≡ map_row types key r }
{
    (r.kind == Kind::Map as u32)
        & ((((Kind::Bool as u32 <= key) & (key <= Kind::Uint64 as u32))
            | ((key == Kind::String as u32) | (key == Kind::Bytes as u32)))
            & ((r.b as usize) < types))
}

fn is_struct(fields: usize, r: TypeRow) -> bool
    ensures { result ≡ struct_row fields r }
{
    (r.kind == Kind::Struct as u32)
        & (((1 <= r.b) & (r.b <= limit::STRUCT_FIELDS))
            & ((r.a as usize) + (r.b as usize) <= fields))
}

fn row_is_good(file: &Sections, t: usize) -> bool
    ensures { result ≡ good_row (table_of file.now.bytes.now) t }
{
    let r = file.row(t);
    let key = file.row(r.a as usize);
    let types = file.layout.types;
    is_plain(r)
        | (is_array(types, r) | (is_map(types, key.kind, r) | is_struct(file.layout.fields, r)))
}

#[tactic(auto, using(crate::proofs::Files::laid_types), unfolding(schema::specs::Check::good_field))]
fn field_is_good(file: &Sections, i: usize) -> bool
    ensures { result ≡ good_field (table_of file.now.bytes.now) i }
{
    let f = file.field(i);
    ((f.ty as usize) < file.layout.types) & (f.optional <= 1)
}

// Whether a letter of a form fits its type: a Y has a struct type, an N has none.
fn letter_fits(file: &Sections, yes: bool, t: u32) -> bool
    ensures { result ≡ cond yes (is_struct (table_of file.now.bytes.now) t) (eqb t 4294967295) }
{
    if yes {
        file.row(t as usize).kind == Kind::Struct as u32
    } else {
        t == format::NO_TYPE
    }
}

// The letters of a form count 8, 4, 2 and 1, where they are Y.
fn is_formed(file: &Sections, m: Method) -> bool
    ensures { result ≡ formed (table_of file.now.bytes.now) m }
{
    (m.form <= limit::LAST_FORM)
        & (letter_fits(file, m.form / 8 % 2 == 1, m.input)
            & (letter_fits(file, m.form / 4 % 2 == 1, m.output)
                & (letter_fits(file, m.form / 2 % 2 == 1, m.input_stream)
                    & letter_fits(file, m.form % 2 == 1, m.output_stream))))
}

#[tactic(auto, unfolding(schema::specs::Check::good_method))]
fn method_is_good(file: &Sections, i: usize) -> bool
    ensures { result ≡ good_method (table_of file.now.bytes.now) i }
{
    let m = file.method(i);
    is_formed(file, m) & file.find_among(i, Names::of(m)).is_none()
}

// What package and service, as one number, and the method are multiplied by: odd, with ones all over.
const NAMES_FACTOR: u64 = 0x369D_EA0F_31A5_3F85;

const METHOD_FACTOR: u64 = 0xD6E8_FEB8_6659_FD93;

// A flag is the top 12 of 64 bits.
const FLAG_SHIFT: u64 = 52;

// The flag of three identifiers, one of 4,096: the top bits of a sum of products, by which those of ordinary tables differ, or of the numbers mixed.
#[tactic(auto, using(crate::proofs::Flags::flag_below), unfolding(crate::specs::Flags::flag_of))]
fn flag_of(names: Names, mixing: bool) -> usize
    ensures { (result ≡ flag_of mixing names.«package» names.service names.method) × (result < 4096) }
{
    let pair = (names.package as u64) + (names.service as u64) * HALF;
    if mixing {
        return (mixed(wrapping_add_u64(mixed(pair), names.method as u64)) >> FLAG_SHIFT) as usize;
    }
    let sum = wrapping_add_u64(
        wrapping_mul(pair, NAMES_FACTOR),
        wrapping_mul(names.method as u64, METHOD_FACTOR),
    );
    (sum >> FLAG_SHIFT) as usize
}

// Whether none of the first i methods has these identifiers. They are looked through only where the flag is taken: else none of them has.
fn is_new(file: &Sections, i: usize, names: Names, taken: bool) -> bool
    ensures { result ≡ (not taken || is_missing (find_among (table_of file.now.bytes.now) i names.«package» names.service names.method)) }
{
    if taken {
        file.find_among(i, names).is_none()
    } else {
        true
    }
}

// Flags of methods, and so many methods are compared without flags.
const FLAGS: usize = 4096;

const FEW_METHODS: usize = 12;

// The lowest method at fault, where a method is compared with those before it only if one of them has its flag. That is abandoned where too many are,
// unless the flags are of numbers mixed: then there is no answer.
fn bad_by_flags(file: &Sections, mixing: bool) -> Option<Option<usize>>
    ensures { MatchOption result (mixing ≡ false) (λ bad. bad ≡ bad_method (table_of file.now.bytes.now)) }
{
    let mut marks = Marks::<FLAGS>::new(mixing);
    for i in 0..file.layout.methods {
        let m = file.method(i);
        let formed = is_formed(file, m);
        let names = Names::of(m);
        let taken = marks.take(flag_of(names, mixing))?;
        if !(formed & is_new(file, i, names, taken)) {
            return Some(Some(i));
        }
    }
    Some(None)
}

// The lowest method at fault.
fn bad_of_many(file: &Sections) -> Option<usize>
    ensures { result ≡ bad_method (table_of file.now.bytes.now) }
{
    match bad_by_flags(file, false) {
        Some(bad) => bad,
        None => bad_by_flags(file, true).flatten(),
    }
}

fn bad_method(file: &Sections) -> Option<usize>
    ensures { result ≡ bad_method (table_of file.now.bytes.now) }
{
    let n = file.layout.methods;
    if n <= FEW_METHODS {
        lowest(n, |i| !method_is_good(file, i))
    } else {
        bad_of_many(file)
    }
}

fn bad_row(file: &Sections) -> Option<usize>
    ensures { result ≡ bad_row (table_of file.now.bytes.now) }
{
    lowest(file.layout.types, |t| !row_is_good(file, t))
}

fn bad_field(file: &Sections) -> Option<usize>
    ensures { result ≡ bad_field (table_of file.now.bytes.now) }
{
    lowest(file.layout.fields, |i| !field_is_good(file, i))
}

// The counts, then the rows.
#[tactic(auto, using(crate::proofs::Checks::small_judged), unfolding(schema::specs::Check::checked_table))]
fn check_rows(file: &Sections) -> Result<(), Refused>
    ensures { told result ≡ checked_table (table_of file.now.bytes.now) }
{
    let l = file.layout;
    if !((l.types <= limit::TYPES)
        & ((l.fields <= limit::FIELDS) & (l.methods <= limit::METHODS)))
    {
        return Refusal::TooManyRows.at(0);
    }
    if let Some(t) = bad_row(file) {
        return Refusal::TypeRow.at(t);
    }
    if let Some(i) = bad_field(file) {
        return Refusal::Field.at(i);
    }
    if let Some(i) = bad_method(file) {
        return Refusal::Method.at(i);
    }
    Ok(())
}

// The verdict on a file, whatever its bytes.
#[tactic(auto, unfolding(schema::specs::Check::checked))]
pub fn check(schema: &[u8]) -> Result<(), Refused>
    ensures { told result ≡ checked schema.now }
{
    if is_shaped(schema) {
        check_rows(&Sections::of(schema))
    } else {
        Refusal::SchemaShape.at(0)
    }
}
