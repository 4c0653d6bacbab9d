// The walkers go over the rows of the sheet by the schema table and put each value's encoding into the output, from `pos` on, where it has a place.
// They call each other in a cycle, in which the depth still allowed falls; a walk that does not judge skips tests that would read contents or keys again.
ghost use Rattle.std.specs.Prelude.{◌≡◌, [], suc, ◌+◌, ◌/◌, ◌^◌, ◌≤◌, ◌<◌, length, replicate};
ghost use Rattle.schema.specs.Table.{row_at, array, struct};
ghost use Rattle.value.specs.Read.{plain_item, pairs, present};
ghost use Rattle.walks.specs.Shape.{fields_from};
ghost use Rattle.walks.specs.Required.{Requires};
ghost use Rattle.writer.specs.Walk.{table_in, shapes_of, value_in, items_in, root_in, value_end, items_end, root_end, whole_end, Walked, Ready, MapRow, KeyReady, KeyPut};

use crate::leaf::{row_due, struct_bits};
use crate::put::{put_bits, put_content, put_number};
use crate::rows::Rows;
use constants::kind::Kind;
use constants::refusal::{Refusal, Refused};
use constants::{format, limit};
use schema::TypeRow;
use value::MOST_PAIRS;
use walks::key::{FLAG_CELLS, is_repeated};
use walks::{required_of, zeros_in};
use wire::bitmap::{BYTE_BITS, SPARE_BITS};

// Pairs of a map whose keys are kept in a short array.
const FEW_KEYS: usize = 8;

// The row and the place in the output after what was written.
#[derive(Clone, Copy)]
pub struct Past {
    pub row: usize,
    pub pos: usize,
}

// An array, a map or a struct of type ty in a row, whose type row is t.
#[cycle(walk)]
fn write_composite(
    rows: &Rows,
    out: &mut [u8],
    ty: u32,
    t: TypeRow,
    row: usize,
    pos: usize,
    depth: usize,
) -> Result<Past, Refused>
    requires { Ready rows.now out.old row pos (value_in rows.now depth ty row) × (t ≡ row_at (table_in rows.now) ty) × (13 < t.kind) }
    ensures { Walked rows.now.sheet.now (value_end rows.now depth ty row pos out.old) result out.new }
{
    if depth == 0 {
        return Refusal::TooDeep.at(row);
    }
    let kind = t.kind;
    if kind == Kind::Array as u32 {
        return write_array(rows, out, ty, t.a, row, pos, depth - 1);
    }
    if kind == Kind::Map as u32 {
        return write_map(rows, out, ty, t, row, pos, depth - 1);
    }
    if kind == Kind::Struct as u32 {
        return write_run(rows, out, ty, t, 1, row, pos, depth);
    }
    // A good table has no composite of another kind: this is never reached, and 50 is what the definition has for a type that there is not.
    Refusal::Sheet.at(row)
}

// A leaf, which is a scalar, a string or bytes, of a kind in a row.
fn write_leaf(
    rows: &Rows,
    out: &mut [u8],
    kind: usize,
    ty: u32,
    row: usize,
    pos: usize,
    depth: usize,
) -> Result<Past, Refused>
    requires ready { Ready rows.now out.old row pos (value_in rows.now depth ty row) }
    requires kind_nonzero { (0 < kind) × (kind ≡ (row_at (table_in rows.now) ty).kind) × (kind < 14) × (0 < depth) }
    ensures { Walked rows.now.sheet.now (value_end rows.now depth ty row pos out.old) result out.new }
{
    let placed = rows.leaf_row(kind, ty, row)?;
    let next = put_content(out, pos, kind, rows.source, placed.place, placed.length);
    Ok(Past {
        row: row + 1,
        pos: next,
    })
}

// So many elements of an array from a row on, which are leaves of a kind: a loop without the cycle of walkers.
fn write_leaves(
    rows: &Rows,
    out: &mut [u8],
    kind: usize,
    elem: u32,
    n: usize,
    start: usize,
    pos: usize,
    depth: usize,
) -> Result<Past, Refused>
    requires ready { Ready rows.now out.old start pos (items_in rows.now depth [] (replicate n (plain_item elem)) start) }
    requires kind_nonzero { (0 < kind) × (kind ≡ (row_at (table_in rows.now) elem).kind) × (kind < 14) }
    ensures { Walked rows.now.sheet.now (items_end rows.now depth [] (replicate n (plain_item elem)) start pos out.old) result out.new }
{
    let mut here = start;
    let mut to = pos;
    for _ in 0..n {
        if depth == 0 {
            return Refusal::TooDeep.at(here);
        }
        let past = write_leaf(rows, out, kind, elem, here, to, depth)?;
        here = past.row;
        to = past.pos;
    }
    Ok(Past { row: here, pos: to })
}

// An array of type ty, whose elements have the type elem and so many levels of depth.
#[cycle(walk)]
fn write_array(
    rows: &Rows,
    out: &mut [u8],
    ty: u32,
    elem: u32,
    row: usize,
    pos: usize,
    depth: usize,
) -> Result<Past, Refused>
    requires { Ready rows.now out.old row pos (value_in rows.now (suc depth) ty row) × (shapes_of rows.now ty ≡ array elem) × (0 < (row_at (table_in rows.now) elem).kind) }
    ensures { Walked rows.now.sheet.now (value_end rows.now (suc depth) ty row pos out.old) result out.new }
{
    let says = row_due(rows.sheet, row, ty)?;
    let next = put_number(out, pos, says.count as u64);
    write_elements(rows, out, elem, says.count, row + 1, next, depth)
}

// The n elements of an array from a row on, which have the type ty.
#[cycle(walk)]
fn write_elements(
    rows: &Rows,
    out: &mut [u8],
    ty: u32,
    n: usize,
    start: usize,
    pos: usize,
    depth: usize,
) -> Result<Past, Refused>
    requires { Ready rows.now out.old start pos (items_in rows.now depth [] (replicate n (plain_item ty)) start) × (0 < (row_at (table_in rows.now) ty).kind) }
    ensures { Walked rows.now.sheet.now (items_end rows.now depth [] (replicate n (plain_item ty)) start pos out.old) result out.new }
{
    let t = rows.schema.known_row(ty as usize);
    let kind = t.kind as usize;
    if kind < Kind::Array as usize {
        return write_leaves(rows, out, kind, ty, n, start, pos, depth);
    }
    if (kind == Kind::Struct as usize) & (0 < depth) {
        return write_run(rows, out, ty, t, n, start, pos, depth);
    }
    let mut here = start;
    let mut to = pos;
    for _ in 0..n {
        let past = write_composite(rows, out, ty, t, here, to, depth)?;
        here = past.row;
        to = past.pos;
    }
    Ok(Past { row: here, pos: to })
}

// A map of type ty, whose type row is t; one of more than 64 pairs is refused at its row.
#[cycle(walk)]
fn write_map(
    rows: &Rows,
    out: &mut [u8],
    ty: u32,
    t: TypeRow,
    row: usize,
    pos: usize,
    depth: usize,
) -> Result<Past, Refused>
    requires { Ready rows.now out.old row pos (value_in rows.now (suc depth) ty row) × (t ≡ row_at (table_in rows.now) ty) × (t.kind ≡ 15) }
    ensures { Walked rows.now.sheet.now (value_end rows.now (suc depth) ty row pos out.old) result out.new }
{
    let n = row_due(rows.sheet, row, ty)?.count;
    if MOST_PAIRS < n {
        return Refusal::MapTooLong.at(row);
    }
    let next = put_number(out, pos, n as u64);
    if n == 0 {
        return Ok(Past {
            row: row + 1,
            pos: next,
        });
    }
    if FEW_KEYS < n {
        return write_many_pairs(rows, out, t, n, row + 1, next, depth);
    }
    let mut keys = [0usize; 2 * (FEW_KEYS + FLAG_CELLS)];
    write_pairs(rows, out, &mut keys, t, n, row + 1, next, depth)
}

// The n pairs of a map, of more than a few. The long array stands here, so that no other map has to make room for it.
#[cycle(walk)]
fn write_many_pairs(
    rows: &Rows,
    out: &mut [u8],
    t: TypeRow,
    n: usize,
    start: usize,
    pos: usize,
    depth: usize,
) -> Result<Past, Refused>
    requires { Ready rows.now out.old start pos (items_in rows.now depth [] (pairs n t.a t.b) start) × MapRow rows.now.schema.bytes.now t × (n ≤ 64) }
    ensures { Walked rows.now.sheet.now (items_end rows.now depth [] (pairs n t.a t.b) start pos out.old) result out.new }
{
    let mut keys = [0usize; 2 * (MOST_PAIRS + FLAG_CELLS)];
    write_pairs(rows, out, &mut keys, t, n, start, pos, depth)
}

// Key i of a map, of a kind from 1 to 13, in a row. It is kept in `keys`.
fn write_key(
    rows: &Rows,
    out: &mut [u8],
    keys: &mut [usize],
    i: usize,
    kind: usize,
    key: u32,
    row: usize,
    pos: usize,
) -> Result<Past, Refused>
    requires { KeyReady rows.now.source.now rows.now.sheet.now out.old keys.old i kind key row pos rows.now.judging }
    ensures { KeyPut rows.now.source.now rows.now.sheet.now out.old keys.old i kind key row pos rows.now.judging result out.new keys.new }
{
    let placed = rows.leaf_row(kind, key, row)?;
    if is_repeated(
        rows.source,
        keys,
        i,
        placed.place,
        placed.length,
        rows.judging,
    ) {
        return Refusal::RepeatedKey.at(row);
    }
    let next = put_content(out, pos, kind, rows.source, placed.place, placed.length);
    Ok(Past {
        row: row + 1,
        pos: next,
    })
}

// The n pairs of a map from a row on. What `keys` holds afterwards means nothing.
#[cycle(walk)]
fn write_pairs(
    rows: &Rows,
    out: &mut [u8],
    keys: &mut [usize],
    t: TypeRow,
    n: usize,
    start: usize,
    pos: usize,
    depth: usize,
) -> Result<Past, Refused>
    requires { Ready rows.now out.old start pos (items_in rows.now depth [] (pairs n t.a t.b) start) × MapRow rows.now.schema.bytes.now t × (n + 4 ≤ length keys.old / 2) × (n ≤ 64) }
    ensures { Walked rows.now.sheet.now (items_end rows.now depth [] (pairs n t.a t.b) start pos out.old) result out.new }
{
    let k = rows.schema.known_row(t.a as usize).kind as usize;
    let v = rows.schema.known_row(t.b as usize);
    let mut at = start;
    let mut to = pos;
    for i in 0..n {
        if depth == 0 {
            return Refusal::TooDeep.at(at);
        }
        let past = write_key(rows, out, keys, i, k, t.a, at, to)?;
        at = past.row;
        to = past.pos;
        if (Kind::Bytes as u32) < v.kind {
            let past = write_composite(rows, out, t.b, v, at, to, depth)?;
            at = past.row;
            to = past.pos;
        } else {
            let kind = v.kind as usize;
            let placed = rows.leaf_row(kind, t.b, at)?;
            to = put_content(out, to, kind, rows.source, placed.place, placed.length);
            at = at + 1;
        }
    }
    Ok(Past { row: at, pos: to })
}

// So many structs of type ty from a row on, whose type row is t. It is a function of its own, which is inlined: called
// outright, the arguments of that call would be copied for arrays and maps too.
#[cycle(walk)]
fn write_run(
    rows: &Rows,
    out: &mut [u8],
    ty: u32,
    t: TypeRow,
    n: usize,
    row: usize,
    pos: usize,
    depth: usize,
) -> Result<Past, Refused>
    requires { Ready rows.now out.old row pos (items_in rows.now depth [] (replicate n (plain_item ty)) row) × (t ≡ row_at (table_in rows.now) ty) × (t.kind ≡ 16) × (0 < depth) }
    ensures { Walked rows.now.sheet.now (items_end rows.now depth [] (replicate n (plain_item ty)) row pos out.old) result out.new }
{
    write_structs(rows, out, ty, t, n, row, pos, depth - 1)
}

// So many structs of type ty from a row on, whose type row is t. Which fields are required is found once for all.
#[cycle(walk)]
fn write_structs(
    rows: &Rows,
    out: &mut [u8],
    ty: u32,
    t: TypeRow,
    count: usize,
    start: usize,
    pos: usize,
    depth: usize,
) -> Result<Past, Refused>
    requires ready { Ready rows.now out.old start pos (items_in rows.now (suc depth) [] (replicate count (plain_item ty)) start) × (shapes_of rows.now ty ≡ struct (fields_from (table_in rows.now) t.a t.b)) }
    requires n_nonzero { (0 < t.b) × (t.b ≤ 64) × (t.a + t.b ≤ length (table_in rows.now).fields) }
    ensures { Walked rows.now.sheet.now (items_end rows.now (suc depth) [] (replicate count (plain_item ty)) start pos out.old) result out.new }
{
    let required = required_of(
        rows.schema.bytes,
        rows.schema.layout(),
        t.a as usize,
        t.b as usize,
    );
    let mut here = start;
    let mut to = pos;
    for _ in 0..count {
        let past = write_struct(rows, out, ty, t, required, here, to, depth)?;
        here = past.row;
        to = past.pos;
    }
    Ok(Past { row: here, pos: to })
}

// An inner struct of type ty, whose type row is t and of whose fields those with bits in `required` have to be there. An unknown bit is refused.
#[cycle(walk)]
fn write_struct(
    rows: &Rows,
    out: &mut [u8],
    ty: u32,
    t: TypeRow,
    required: u64,
    row: usize,
    pos: usize,
    depth: usize,
) -> Result<Past, Refused>
    requires ready { Ready rows.now out.old row pos (value_in rows.now (suc depth) ty row) × (shapes_of rows.now ty ≡ struct (fields_from (table_in rows.now) t.a t.b)) }
    requires n_nonzero { (0 < t.b) × (t.b ≤ 64) × (t.a + t.b ≤ length (table_in rows.now).fields) × Requires required (fields_from (table_in rows.now) t.a t.b) }
    ensures { Walked rows.now.sheet.now (value_end rows.now (suc depth) ty row pos out.old) result out.new }
{
    let n = t.b as usize;
    let says = row_due(rows.sheet, row, ty)?;
    let known = struct_bits(rows.source, required, n, says.place, says.count, true, row)?;
    let next = put_bits(out, pos, (n + SPARE_BITS) / BYTE_BITS, known);
    write_fields(rows, out, t.a as usize, n, known, row + 1, next, depth)
}

// A value of type ty in a row. It has one call site, into which it is inlined, since most fields are scalars, strings or bytes.
#[cycle(walk)]
fn write_value(
    rows: &Rows,
    out: &mut [u8],
    ty: u32,
    row: usize,
    pos: usize,
    depth: usize,
) -> Result<Past, Refused>
    requires { Ready rows.now out.old row pos (value_in rows.now depth ty row) × (0 < (row_at (table_in rows.now) ty).kind) }
    ensures { Walked rows.now.sheet.now (value_end rows.now depth ty row pos out.old) result out.new }
{
    let t = rows.schema.known_row(ty as usize);
    let kind = t.kind as usize;
    if Kind::Array as usize <= kind {
        return write_composite(rows, out, ty, t, row, pos, depth);
    }
    if depth == 0 {
        return Refusal::TooDeep.at(row);
    }
    let placed = rows.leaf_row(kind, ty, row)?;
    let next = put_content(out, pos, kind, rows.source, placed.place, placed.length);
    Ok(Past {
        row: row + 1,
        pos: next,
    })
}

// The fields of a struct whose bits are set in `known`, from the row `start` on.
#[cycle(walk)]
fn write_fields(
    rows: &Rows,
    out: &mut [u8],
    first: usize,
    n: usize,
    known: u64,
    start: usize,
    pos: usize,
    depth: usize,
) -> Result<Past, Refused>
    requires ready { Ready rows.now out.old start pos (items_in rows.now depth [] (present (fields_from (table_in rows.now) first n) known) start) }
    requires n_bound { (n ≤ 64) × (known < 2 ^ n) × (first + n ≤ length (table_in rows.now).fields) }
    ensures { Walked rows.now.sheet.now (items_end rows.now depth [] (present (fields_from (table_in rows.now) first n) known) start pos out.old) result out.new }
{
    let file = rows.schema.sections();
    let mut i = first;
    let mut bits = known;
    let mut here = start;
    let mut to = pos;
    // A turn takes the next field that is there, and goes on by as many bits as it passes: there is no count to go by.
    while bits != 0 {
        if bits % 2 == 1 {
            let f = file.field(i);
            let past = write_value(rows, out, f.ty, here, to, depth)?;
            here = past.row;
            to = past.pos;
            bits = bits / 2;
            i = i + 1;
        } else {
            let k = zeros_in(bits);
            bits = bits >> k;
            i = i + k;
        }
    }
    Ok(Past { row: here, pos: to })
}

// The known fields of the root from row 1 on, of those that it has from the first on. No row is left over.
fn root_fields(
    rows: &Rows,
    out: &mut [u8],
    first: usize,
    n: usize,
    known: u64,
    to: usize,
) -> Result<Past, Refused>
    requires ready { Ready rows.now out.old 1 to (items_in rows.now 15 [] (present (fields_from (table_in rows.now) first n) known) 1) }
    requires n_bound { (n ≤ 64) × (known < 2 ^ n) × (first + n ≤ length (table_in rows.now).fields) }
    ensures { Walked rows.now.sheet.now (whole_end (items_end rows.now 15 [] (present (fields_from (table_in rows.now) first n) known) 1 to out.old)) result out.new }
{
    let past = write_fields(rows, out, first, n, known, 1, to, limit::BELOW_ROOT)?;
    if past.row < rows.sheet.len() / format::ROW_CELLS {
        return Refusal::Sheet.at(past.row);
    }
    Ok(past)
}

// The root, a struct of type ty that has n fields from the first on, in row 0. Its unknown bits are left out, and no row is left over.
pub fn root(rows: &Rows, out: &mut [u8], ty: u32, first: usize, n: usize) -> Result<Past, Refused>
    requires ready { Ready rows.now out.old 0 0 (root_in rows.now ty (fields_from (table_in rows.now) first n)) × (shapes_of rows.now ty ≡ struct (fields_from (table_in rows.now) first n)) }
    requires n_nonzero { (0 < n) × (n ≤ 64) × (first + n ≤ length (table_in rows.now).fields) }
    ensures { Walked rows.now.sheet.now (root_end rows.now ty (fields_from (table_in rows.now) first n) out.old) result out.new }
{
    let says = row_due(rows.sheet, 0, ty)?;
    let required = required_of(rows.schema.bytes, rows.schema.layout(), first, n);
    let known = struct_bits(rows.source, required, n, says.place, says.count, false, 0)?;
    let next = put_bits(out, 0, (n + SPARE_BITS) / BYTE_BITS, known);
    root_fields(rows, out, first, n, known, next)
}
