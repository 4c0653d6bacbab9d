// Arrays of structs that hold nothing but scalars, strings and bytes, and of which only the first fields are shown: the others are read without a row.
ghost use Rattle.std.specs.Prelude.{◌≡◌, true, List, ℕ, suc, ◌+◌, ◌-◌, ◌/◌, ◌%◌, ◌^◌, ◌≤◌, ◌<◌, get_or};
ghost use Rattle.schema.specs.Table.{row_at, array, struct};
ghost use Rattle.schema.specs.File.{Laid, table_of};
ghost use Rattle.schema.specs.Check.{IsGood};
ghost use Rattle.walks.specs.Shape.{fields_from, shape_in};
ghost use Rattle.flat.specs.Walk.{value_in, whole_in, Ready};
ghost use Rattle.flat.specs.Flat.{IsFlat, Described, HeldFields, FieldsReady, HeldFirst, ValuedPartial, HeldPartial};
ghost use Rattle.flat.specs.Told.{told_walk};

use crate::elements::{InnerBits, Prepared, are_leaves, inner_presence, prepared_of};
use crate::leaf::{content, ones_in, shown_of};
use crate::sheet::put_row;
use crate::{Past, Source};
use constants::kind::Kind;
use constants::limit;
use constants::refusal::{Refusal, Refused};
use schema::TypeRow;
use table::access::type_row;
use table::rows::{field_row, row as row_at};
use walks::zeros_in;
use wire::bitmap::low_bits;

// A struct's type, of which the first m fields are shown.
#[derive(Clone, Copy)]
pub struct First {
    pub elem: u32,
    pub m: usize,
}

// Whether a type is a struct of leaves of which only the first fields are shown.
pub fn is_partly_shown(shown: &[u8; limit::TYPES], s: &[u8], ty: u32, depth: usize) -> bool
    requires { IsGood s.now }
    ensures { result ≡ true → IsFlat s.now depth ty × ((row_at (table_of s.now) ty).kind ≡ 16) × (get_or shown.now ty 0 < (row_at (table_of s.now) ty).b) }
{
    if depth < 2 {
        return false;
    }
    let t = type_row(s, ty as usize);
    if t.kind != Kind::Struct as u32 {
        return false;
    }
    let n = t.b as usize;
    if n <= shown_of(shown, ty) {
        return false;
    }
    are_leaves(s, t.a as usize, n)
}

// Some fields of a struct, n from one on, by its row made theirs.
fn part_of(f: Prepared, first: usize, n: usize) -> Prepared
    requires { (first ≤ 2048) × (n ≤ 64) }
    ensures { result ≡ record { ty = f.ty; row = record { kind = f.row.kind; a = first; b = n }; required = f.required; layout = f.layout } }
{
    Prepared {
        row: TypeRow {
            kind: f.row.kind,
            a: first as u32,
            b: n as u32,
        },
        ..f
    }
}

// The fields of a struct whose bits are set, from the place after its bitmap on, and the struct's own row: its bitmap stands at `place`. The loop is that of
// `elements::flat_fields`, which says why it stands twice.
fn leaf_fields(
    source: &Source,
    f: Prepared,
    sheet: &mut [u32],
    head: InnerBits,
    place: usize,
    depth: usize,
    row: usize,
) -> Result<Past, Refused>
    requires { FieldsReady source.now.schema.bytes.now source.now.payload.now depth f.ty f.row.a f.row.b place head.known head.start row source.now.judging × Laid source.now.schema.bytes.now f.layout }
    ensures { HeldFields source.now.schema.bytes.now source.now.payload.now depth f.ty f.row.a f.row.b place head.known head.start row sheet.old (told_walk result) sheet.new }
{
    let mut i = f.row.a as usize;
    let mut bits = head.known;
    let mut here = head.start;
    let mut below = row + 1;
    // A turn takes the next field that is there, and goes on by as many bits as it passes: there is no count to go by.
    while bits != 0 {
        if bits % 2 == 1 {
            let d = field_row(source.schema.bytes, f.layout, i);
            let t = row_at(source.schema.bytes, f.layout, d.ty as usize);
            let content = content(source.payload, t.kind as usize, here, source.judging)?;
            put_row(
                sheet,
                below,
                d.ty,
                content.from,
                content.to - content.from,
                0,
            );
            here = content.to;
            below = below + 1;
            bits = bits / 2;
            i = i + 1;
        } else {
            let k = zeros_in(bits);
            bits = bits >> k;
            i = i + k;
        }
    }
    put_row(sheet, row, f.ty, place, here - place, below - row - 1);
    Ok(Past {
        due: 0,
        next: here,
        row: below,
    })
}

// The fields of a struct from field m on, from a place on. They are given no rows.
fn added_fields(
    source: &Source,
    f: Prepared,
    m: usize,
    known: u64,
    at: usize,
    depth: usize,
    row: usize,
) -> Result<Past, Refused>
    requires fields { FieldsReady source.now.schema.bytes.now source.now.payload.now depth f.ty (f.row.a + m) (f.row.b - m) at (known / 2 ^ m % 2 ^ (f.row.b - m)) at row source.now.judging }
    requires bounds { Laid source.now.schema.bytes.now f.layout × (m < f.row.b) × (f.row.b ≤ 64) }
    ensures { (sheet after : List ℕ) × HeldFields source.now.schema.bytes.now source.now.payload.now depth f.ty (f.row.a + m) (f.row.b - m) at (known / 2 ^ m % 2 ^ (f.row.b - m)) at row sheet (told_walk result) after }
{
    let mut none = [0u32; 1];
    let first = f.row.a as usize + m;
    let n = f.row.b as usize - m;
    let rest = InnerBits {
        known: low_bits(known >> m, n),
        start: at,
    };
    leaf_fields(
        source,
        part_of(f, first, n),
        &mut none[..0],
        rest,
        at,
        depth,
        row,
    )
}

// The fields of a struct, of which the first m are shown. Its own row is written again, with its whole length.
fn partial_fields(
    source: &Source,
    f: Prepared,
    m: usize,
    sheet: &mut [u32],
    head: InnerBits,
    place: usize,
    depth: usize,
    row: usize,
) -> Result<Past, Refused>
    requires fields { FieldsReady source.now.schema.bytes.now source.now.payload.now depth f.ty f.row.a f.row.b place head.known head.start row source.now.judging × Laid source.now.schema.bytes.now f.layout }
    requires shape { (m < f.row.b) × (shape_in source.now.schema.bytes.now f.ty ≡ struct (fields_from (table_of source.now.schema.bytes.now) f.row.a f.row.b)) }
    ensures { HeldFirst source.now.schema.bytes.now source.now.payload.now depth f.ty f.row.a f.row.b m place head.known head.start row sheet.old (told_walk result) sheet.new }
{
    let mine = InnerBits {
        known: low_bits(head.known, m),
        start: head.start,
    };
    let first_part = leaf_fields(
        source,
        part_of(f, f.row.a as usize, m),
        sheet,
        mine,
        place,
        depth,
        row,
    )?;
    let rest = added_fields(source, f, m, head.known, first_part.next, depth, row)?;
    put_row(
        sheet,
        row,
        f.ty,
        place,
        rest.next - place,
        ones_in(mine.known),
    );
    Ok(Past {
        due: first_part.due + rest.due,
        next: rest.next,
        row: first_part.row,
    })
}

// A struct of which the first m fields are shown.
fn partial_struct(
    source: &Source,
    f: Prepared,
    m: usize,
    sheet: &mut [u32],
    at: usize,
    depth: usize,
    row: usize,
) -> Result<Past, Refused>
    requires { Ready source.now.schema.bytes.now source.now.payload.now at row source.now.judging (value_in source.now.schema.bytes.now source.now.payload.now (suc depth) f.ty at)
        × Described source.now.schema.bytes.now f.ty f × IsFlat source.now.schema.bytes.now (suc depth) f.ty × (f.row.kind ≡ 16) × (m < f.row.b) }
    ensures { ValuedPartial source.now.schema.bytes.now source.now.payload.now (suc depth) f.ty m at row sheet.old (told_walk result) sheet.new }
{
    let head = inner_presence(source.payload, f.required, f.row.b as usize, at)?;
    partial_fields(source, f, m, sheet, head, at, depth, row)
}

// The n elements of an array from a place on, structs of the type elem, of which the first m fields are shown.
pub fn partial_structs(
    source: &Source,
    sheet: &mut [u32],
    ty: u32,
    first: First,
    n: usize,
    start: usize,
    depth: usize,
    row: usize,
) -> Result<Past, Refused>
    requires ready { Ready source.now.schema.bytes.now source.now.payload.now start (row + 1) source.now.judging (whole_in source.now.schema.bytes.now source.now.payload.now depth ty (array first.elem) start n start)
        × IsFlat source.now.schema.bytes.now depth first.elem × (n ≤ 16384) }
    requires first_value { ((row_at (table_of source.now.schema.bytes.now) first.elem).kind ≡ 16) × (first.m < (row_at (table_of source.now.schema.bytes.now) first.elem).b) }
    ensures { HeldPartial source.now.schema.bytes.now source.now.payload.now depth ty first.elem first.m start n start row sheet.old (told_walk result) sheet.new }
{
    let f = prepared_of(&source.schema, first.elem);
    let mut here = start;
    let mut below = row + 1;
    let mut sum: u32 = 0;
    for _ in 0..n {
        if depth == 0 {
            return Refusal::TooDeep.at(here);
        }
        let past = partial_struct(source, f, first.m, sheet, here, depth - 1, below)?;
        here = past.next;
        below = past.row;
        sum = sum + past.due;
    }
    put_row(sheet, row, ty, start, here - start, n);
    Ok(Past {
        due: sum,
        next: here,
        row: below,
    })
}
