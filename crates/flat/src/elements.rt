// Arrays whose elements hold nothing but scalars, strings and bytes: these themselves, arrays of them, and structs of them.
// What the elements' type says is read once an array; what reads an element has one call site, and is inlined there.
ghost use Rattle.std.specs.Prelude.{◌≡◌, true, suc, ◌+◌, ◌≤◌, ◌<◌, length, IfErr};
ghost use Rattle.schema.specs.Table.{row_at, array};
ghost use Rattle.schema.specs.File.{Laid, table_of};
ghost use Rattle.schema.specs.Check.{IsGood};
ghost use Rattle.walks.specs.Shape.{shape_in};
ghost use Rattle.flat.specs.Walk.{value_in, whole_in, first_fields, Ready};
ghost use Rattle.flat.specs.Flat.{LeavesIn, IsFlat, Described, InnerHeaded, ValuedFlat, HeldFlat, HeldLeaves, HeldFields, FieldsReady};
ghost use Rattle.flat.specs.Told.{told_inner, told_walk};

use crate::leaf::{content, read_count, shown_of};
use crate::sheet::put_row;
use crate::{Past, Source};
use constants::kind::Kind;
use constants::limit;
use constants::refusal::{Refusal, Refused};
use schema::{Layout, TypeRow};
use table::access::type_row;
use table::file::layout_of;
use table::good::Schema;
use table::rows::{field_row, row as row_at};
use walks::{required_of, zeros_in};
use wire::bitmap;

// A type as the loop over elements needs it: its row, the bits of a struct's fields that are not optional, and the table's layout.
#[derive(Clone, Copy)]
pub struct Prepared {
    pub ty: u32,
    pub row: TypeRow,
    pub required: u64,
    pub layout: Layout,
}

// What the bitmap of an inner struct says: its bits, all of known fields, and the place after it.
#[derive(Clone, Copy)]
pub struct InnerBits {
    pub known: u64,
    pub start: usize,
}

// Whether each of n fields from the first on is a scalar, a string or bytes.
pub fn are_leaves(s: &[u8], first: usize, n: usize) -> bool
    requires { IsGood s.now × (first + n ≤ length (table_of s.now).fields) }
    ensures { result ≡ true → LeavesIn (table_of s.now) first (first + n) }
{
    let l = layout_of(s);
    for i in first..first + n {
        let f = field_row(s, l, i);
        let t = row_at(s, l, f.ty as usize);
        if (Kind::Bytes as u32) < t.kind {
            return false;
        }
    }
    true
}

// Whether the elements of a type, an array's or a struct's, can be read in the loop; a struct has to be shown whole.
pub fn is_flat(shown: &[u8; limit::TYPES], s: &[u8], ty: u32, depth: usize) -> bool
    requires { IsGood s.now }
    ensures { result ≡ true → IsFlat s.now depth ty × (first_fields shown.now (shape_in s.now) ty ≡ shape_in s.now ty) }
{
    if depth < 2 {
        return false;
    }
    let t = type_row(s, ty as usize);
    if t.kind == Kind::Array as u32 {
        let e = type_row(s, t.a as usize);
        return e.kind < Kind::Array as u32;
    }
    if t.kind != Kind::Struct as u32 {
        return false;
    }
    let n = t.b as usize;
    if shown_of(shown, ty) < n {
        return false;
    }
    are_leaves(s, t.a as usize, n)
}

// What is prepared of a type before its values are read.
pub fn prepared_of(schema: &Schema, ty: u32) -> Prepared
    ensures { Described schema.now.bytes.now ty result }
{
    let file = schema.sections();
    let t = file.row(ty as usize);
    if t.kind != Kind::Struct as u32 {
        return Prepared {
            ty,
            row: t,
            required: 0,
            layout: file.layout,
        };
    }
    let required = required_of(schema.bytes, file.layout, t.a as usize, t.b as usize);
    Prepared {
        ty,
        row: t,
        required,
        layout: file.layout,
    }
}

// The bitmap of an inner struct that has n fields, of which those with bits in `required` have to be there; a refusal is at its own place.
pub fn inner_presence(p: &[u8], required: u64, n: usize, at: usize) -> Result<InnerBits, Refused>
    requires { (0 < n) × (n ≤ 64) × (at ≤ length p.now) }
    ensures told { InnerHeaded p.now required n at (told_inner result) }
    ensures place { IfErr result (λ e. e.place ≡ at) }
{
    let size = (n + bitmap::SPARE_BITS) / bitmap::BYTE_BITS;
    if p.len() - at < size {
        return Refusal::Cut.at(at);
    }
    let b = bitmap::read(p, at, n);
    if required & b.bits != required {
        return Refusal::AbsentField.at(at);
    }
    if b.bits != b.known {
        return Refusal::UnknownBit.at(at);
    }
    Ok(InnerBits {
        known: b.known,
        start: at + size,
    })
}

// The n elements of an array from a place on that are scalars, strings or bytes.
fn read_leaves(
    source: &Source,
    sheet: &mut [u32],
    ty: u32,
    elem: u32,
    n: usize,
    start: usize,
    depth: usize,
    row: usize,
) -> Result<Past, Refused>
    requires ready { Ready source.now.schema.bytes.now source.now.payload.now start (row + 1) source.now.judging (whole_in source.now.schema.bytes.now source.now.payload.now depth ty (array elem) start n start) }
    requires kind_nonzero { (0 < (row_at (table_of source.now.schema.bytes.now) elem).kind) × ((row_at (table_of source.now.schema.bytes.now) elem).kind < 14) × (n ≤ 16384) }
    ensures { HeldLeaves source.now.schema.bytes.now source.now.payload.now depth ty elem start n start row sheet.old (told_walk result) sheet.new }
{
    let t = source.schema.type_row(elem as usize);
    let kind = t.kind as usize;
    let mut here = start;
    let mut below = row + 1;
    for _ in 0..n {
        if depth == 0 {
            return Refusal::TooDeep.at(here);
        }
        let content = content(source.payload, kind, here, source.judging)?;
        put_row(
            sheet,
            below,
            elem,
            content.from,
            content.to - content.from,
            0,
        );
        here = content.to;
        below = below + 1;
    }
    put_row(sheet, row, ty, start, here - start, n);
    Ok(Past {
        due: 0,
        next: here,
        row: below,
    })
}

// The fields of a struct whose bits are set, from the place after its bitmap on, and the struct's own row: its bitmap stands at `place`. The loop of
// `added::leaf_fields` again: one function at three call sites is not inlined, and takes small structs 1.7 times as long. It goes over the bits that are
// set, by a `while`: an iterator over them would carry the same two numbers.
fn flat_fields(
    source: &Source,
    f: Prepared,
    sheet: &mut [u32],
    head: InnerBits,
    place: usize,
    depth: usize,
    row: usize,
) -> Result<Past, Refused>
    requires { FieldsReady source.now.schema.bytes.now source.now.payload.now depth f.ty f.row.a f.row.b place head.known head.start row source.now.judging × Laid source.now.schema.bytes.now f.layout }
    ensures { HeldFields source.now.schema.bytes.now source.now.payload.now depth f.ty f.row.a f.row.b place head.known head.start row sheet.old (told_walk result) sheet.new }
{
    let mut i = f.row.a as usize;
    let mut bits = head.known;
    let mut here = head.start;
    let mut below = row + 1;
    // A turn takes the next field that is there, and goes on by as many bits as it passes: there is no count to go by.
    while bits != 0 {
        if bits % 2 == 1 {
            let d = field_row(source.schema.bytes, f.layout, i);
            let t = row_at(source.schema.bytes, f.layout, d.ty as usize);
            let content = content(source.payload, t.kind as usize, here, source.judging)?;
            put_row(
                sheet,
                below,
                d.ty,
                content.from,
                content.to - content.from,
                0,
            );
            here = content.to;
            below = below + 1;
            bits = bits / 2;
            i = i + 1;
        } else {
            let k = zeros_in(bits);
            bits = bits >> k;
            i = i + k;
        }
    }
    put_row(sheet, row, f.ty, place, here - place, below - row - 1);
    Ok(Past {
        due: 0,
        next: here,
        row: below,
    })
}

// A struct of scalars, strings and bytes.
fn flat_struct(
    source: &Source,
    f: Prepared,
    sheet: &mut [u32],
    at: usize,
    depth: usize,
    row: usize,
) -> Result<Past, Refused>
    requires { Ready source.now.schema.bytes.now source.now.payload.now at row source.now.judging (value_in source.now.schema.bytes.now source.now.payload.now (suc depth) f.ty at)
        × Described source.now.schema.bytes.now f.ty f × IsFlat source.now.schema.bytes.now (suc depth) f.ty × (f.row.kind ≡ 16) }
    ensures { ValuedFlat source.now.schema.bytes.now source.now.payload.now (suc depth) f.ty at row sheet.old (told_walk result) sheet.new }
{
    let head = inner_presence(source.payload, f.required, f.row.b as usize, at)?;
    flat_fields(source, f, sheet, head, at, depth, row)
}

// An array of scalars, strings or bytes.
fn flat_array(
    source: &Source,
    f: Prepared,
    sheet: &mut [u32],
    at: usize,
    depth: usize,
    row: usize,
) -> Result<Past, Refused>
    requires { Ready source.now.schema.bytes.now source.now.payload.now at row source.now.judging (value_in source.now.schema.bytes.now source.now.payload.now (suc depth) f.ty at)
        × Described source.now.schema.bytes.now f.ty f × IsFlat source.now.schema.bytes.now (suc depth) f.ty × (f.row.kind ≡ 14) }
    ensures { ValuedFlat source.now.schema.bytes.now source.now.payload.now (suc depth) f.ty at row sheet.old (told_walk result) sheet.new }
{
    let count = read_count(source.payload, at, 1)?;
    read_leaves(
        source,
        sheet,
        f.ty,
        f.row.a,
        count.n,
        count.start,
        depth,
        row,
    )
}

// An element of a flat type: a scalar, a string or bytes, or a struct or an array of them.
fn element(
    source: &Source,
    f: Prepared,
    sheet: &mut [u32],
    at: usize,
    depth: usize,
    row: usize,
) -> Result<Past, Refused>
    requires { Ready source.now.schema.bytes.now source.now.payload.now at row source.now.judging (value_in source.now.schema.bytes.now source.now.payload.now (suc depth) f.ty at)
        × Described source.now.schema.bytes.now f.ty f × IsFlat source.now.schema.bytes.now (suc depth) f.ty }
    ensures { ValuedFlat source.now.schema.bytes.now source.now.payload.now (suc depth) f.ty at row sheet.old (told_walk result) sheet.new }
{
    if f.row.kind == Kind::Struct as u32 {
        return flat_struct(source, f, sheet, at, depth, row);
    }
    if f.row.kind == Kind::Array as u32 {
        return flat_array(source, f, sheet, at, depth, row);
    }
    let content = content(source.payload, f.row.kind as usize, at, source.judging)?;
    put_row(sheet, row, f.ty, content.from, content.to - content.from, 0);
    Ok(Past {
        due: 0,
        next: content.to,
        row: row + 1,
    })
}

// The n elements of an array from a place on.
pub fn elements_of(
    source: &Source,
    sheet: &mut [u32],
    ty: u32,
    elem: u32,
    n: usize,
    start: usize,
    depth: usize,
    row: usize,
) -> Result<Past, Refused>
    requires { Ready source.now.schema.bytes.now source.now.payload.now start (row + 1) source.now.judging (whole_in source.now.schema.bytes.now source.now.payload.now depth ty (array elem) start n start)
        × IsFlat source.now.schema.bytes.now depth elem × (n ≤ 16384) }
    ensures { HeldFlat source.now.schema.bytes.now source.now.payload.now depth ty elem start n start row sheet.old (told_walk result) sheet.new }
{
    let f = prepared_of(&source.schema, elem);
    let mut here = start;
    let mut below = row + 1;
    let mut sum: u32 = 0;
    for _ in 0..n {
        if depth == 0 {
            return Refusal::TooDeep.at(here);
        }
        let past = element(source, f, sheet, here, depth - 1, below)?;
        here = past.next;
        below = past.row;
        sum = sum + past.due;
    }
    put_row(sheet, row, ty, start, here - start, n);
    Ok(Past {
        due: sum,
        next: here,
        row: below,
    })
}

// The same of slices, as docs/PROVING.md names it.
pub fn read_elements(
    s: &[u8],
    p: &[u8],
    sheet: &mut [u32],
    ty: u32,
    elem: u32,
    n: usize,
    start: usize,
    depth: usize,
    row: usize,
    judging: bool,
) -> Result<Past, Refused>
    requires { Ready s.now p.now start (row + 1) judging (whole_in s.now p.now depth ty (array elem) start n start) × IsFlat s.now depth elem × (n ≤ 16384) }
    ensures { HeldFlat s.now p.now depth ty elem start n start row sheet.old (told_walk result) sheet.new }
{
    let source = Source {
        schema: Schema::of_good(s),
        payload: p,
        judging,
    };
    elements_of(&source, sheet, ty, elem, n, start, depth, row)
}
