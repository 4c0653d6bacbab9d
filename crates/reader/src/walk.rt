// The walkers read a source's payload by its schema and write rows from `row` on where the sheet has them, of a struct of type ty for the first shown[ty]
// fields. They call each other in a cycle, in which the depth still allowed falls; a walk that does not judge skips tests that would read contents again.
ghost use Rattle.std.specs.Prelude.{◌≡◌, true, List, ℕ, suc, ◌+◌, ◌/◌, ◌≤◌, ◌<◌, length, get_or};
ghost use Rattle.schema.specs.Table.{row_at, array, map, struct};
ghost use Rattle.schema.specs.File.{Laid, table_of};
ghost use Rattle.schema.specs.Check.{field_row_of};
ghost use Rattle.walks.specs.Shape.{fields_from, shape_in};
ghost use Rattle.reader.specs.Root.{Ended};
ghost use Rattle.reader.specs.Structs.{OfType, OfCount, added_to, HeldBy, ShownBy, ReadyFor};
ghost use Rattle.flat.specs.Told.{told_walk};
ghost use Rattle.flat.specs.Walk.{value_in, whole_in, root_in, Valued, Held, Rooted, Ready};

use crate::pairs::{needs_walker, read_childless, read_key};
use constants::kind::Kind;
use constants::limit;
use constants::refusal::{Refusal, Refused};
use flat::added::{First, is_partly_shown, partial_structs};
use flat::elements::{elements_of, is_flat};
use flat::leaf::{content, map_count, ones_in, presence, read_count, shown_of};
use flat::maps::{MapType, holds_leaves, maps_of};
use flat::sheet::put_row;
use flat::{Past, Source};
use schema::{Layout, TypeRow};
use table::rows::field_row;
use value::MOST_PAIRS;
use walks::key::FLAG_CELLS;
use wire::bitmap::low_bits;

// Pairs of a map whose keys are kept in the shortest array, and in the next: arrays, since the library takes no heap.
const TWO_KEYS: usize = 2;

const FEW_KEYS: usize = 8;

// What a walk reads, and how many of each struct's fields it shows, by the struct's type.
// It has two lifetimes: with one the borrow checker does not cover the functions that make it.
#[derive(Clone, Copy)]
pub struct View<'a, 'b> {
    pub shown: &'b [u8; limit::TYPES],
    pub source: Source<'a>,
}

// An array, a map or a struct of type ty, whose row is t; what it holds has so many levels of depth.
#[cycle(walk)]
fn read_composite(
    view: &View,
    sheet: &mut [u32],
    ty: u32,
    t: TypeRow,
    at: usize,
    depth: usize,
    row: usize,
) -> Result<Past, Refused>
    requires { Ready view.now.source.schema.bytes.now view.now.source.payload.now at row view.now.source.judging (value_in view.now.source.schema.bytes.now view.now.source.payload.now (suc depth) ty at)
        × (t ≡ row_at (table_of view.now.source.schema.bytes.now) ty) × (13 < t.kind) }
    ensures { Valued view.now.shown.now view.now.source.schema.bytes.now view.now.source.payload.now (suc depth) ty at row sheet.old (told_walk result) sheet.new }
{
    if t.kind == Kind::Array as u32 {
        return read_array(view, sheet, ty, t.a, at, depth, row);
    }
    if t.kind == Kind::Map as u32 {
        return read_map(view, sheet, ty, t, at, depth, row);
    }
    if t.kind == Kind::Struct as u32 {
        return read_struct(view, sheet, ty, t, at, depth, row);
    }
    // A good table has no composite of another kind: this is never reached, and 42 is what the definition has for a type that there is not.
    Refusal::TypeRow.at(0)
}

// An array of type ty, whose elements have the type elem.
#[cycle(walk)]
fn read_array(
    view: &View,
    sheet: &mut [u32],
    ty: u32,
    elem: u32,
    at: usize,
    depth: usize,
    row: usize,
) -> Result<Past, Refused>
    requires { Ready view.now.source.schema.bytes.now view.now.source.payload.now at row view.now.source.judging (value_in view.now.source.schema.bytes.now view.now.source.payload.now (suc depth) ty at)
        × (shape_in view.now.source.schema.bytes.now ty ≡ array elem) × (0 < (row_at (table_of view.now.source.schema.bytes.now) elem).kind) }
    ensures { Valued view.now.shown.now view.now.source.schema.bytes.now view.now.source.payload.now (suc depth) ty at row sheet.old (told_walk result) sheet.new }
{
    let s = view.source.schema.bytes;
    let count = read_count(view.source.payload, at, 1)?;
    let n = count.n;
    let start = count.start;
    let t = view.source.schema.type_row(elem as usize);
    if t.kind < Kind::Array as u32 {
        return elements_of(&view.source, sheet, ty, elem, n, start, depth, row);
    }
    if is_flat(view.shown, s, elem, depth) {
        return elements_of(&view.source, sheet, ty, elem, n, start, depth, row);
    }
    if is_partly_shown(view.shown, s, elem, depth) {
        let first = First {
            elem,
            m: shown_of(view.shown, elem),
        };
        return partial_structs(&view.source, sheet, ty, first, n, start, depth, row);
    }
    if holds_leaves(s, t) {
        let m = MapType {
            ty: elem,
            key: t.a,
            val: t.b,
        };
        return maps_of(&view.source, sheet, ty, m, n, start, depth, row);
    }
    read_composites(view, sheet, ty, elem, n, start, depth, row)
}

// The n elements of an array, composites of the type elem.
#[cycle(walk)]
fn read_composites(
    view: &View,
    sheet: &mut [u32],
    ty: u32,
    elem: u32,
    n: usize,
    start: usize,
    depth: usize,
    row: usize,
) -> Result<Past, Refused>
    requires ready { Ready view.now.source.schema.bytes.now view.now.source.payload.now start (row + 1) view.now.source.judging (whole_in view.now.source.schema.bytes.now view.now.source.payload.now depth ty (array elem) start n start)
        × (n ≤ 16384) }
    requires bound { 13 < (row_at (table_of view.now.source.schema.bytes.now) elem).kind }
    ensures { Held view.now.shown.now view.now.source.schema.bytes.now view.now.source.payload.now depth ty (array elem) start n start row sheet.old (told_walk result) sheet.new }
{
    let t = view.source.schema.known_row(elem as usize);
    let mut here = start;
    let mut below = row + 1;
    let mut sum: u32 = 0;
    for _ in 0..n {
        if depth == 0 {
            return Refusal::TooDeep.at(here);
        }
        let past = read_composite(view, sheet, elem, t, here, depth - 1, below)?;
        here = past.next;
        below = past.row;
        sum = sum + past.due;
    }
    put_row(sheet, row, ty, start, here - start, n);
    Ok(Past {
        due: sum,
        next: here,
        row: below,
    })
}

// A map of type ty, whose row is t, of at most 64 pairs.
#[cycle(walk)]
fn read_map(
    view: &View,
    sheet: &mut [u32],
    ty: u32,
    t: TypeRow,
    at: usize,
    depth: usize,
    row: usize,
) -> Result<Past, Refused>
    requires { Ready view.now.source.schema.bytes.now view.now.source.payload.now at row view.now.source.judging (value_in view.now.source.schema.bytes.now view.now.source.payload.now (suc depth) ty at)
        × (t ≡ row_at (table_of view.now.source.schema.bytes.now) ty) × (t.kind ≡ 15) }
    ensures { Valued view.now.shown.now view.now.source.schema.bytes.now view.now.source.payload.now (suc depth) ty at row sheet.old (told_walk result) sheet.new }
{
    let count = map_count(view.source.payload, at)?;
    let n = count.n;
    let start = count.start;
    if MOST_PAIRS < n {
        return Refusal::MapTooLong.at(at);
    }
    if n == 0 {
        put_row(sheet, row, ty, start, 0, 0);
        return Ok(Past {
            due: 0,
            next: start,
            row: row + 1,
        });
    }
    if n <= TWO_KEYS {
        let m = MapType {
            ty,
            key: t.a,
            val: t.b,
        };
        let mut keys = [0usize; 2 * (TWO_KEYS + FLAG_CELLS)];
        return read_pairs(view, sheet, &mut keys, m, n, start, depth, row);
    }
    read_more_pairs(view, sheet, ty, t, n, start, depth, row)
}

// The n pairs of a map, more than two: the longer arrays of keys stand here, so that no other map has to clear them.
#[cycle(walk)]
fn read_more_pairs(
    view: &View,
    sheet: &mut [u32],
    ty: u32,
    t: TypeRow,
    n: usize,
    start: usize,
    depth: usize,
    row: usize,
) -> Result<Past, Refused>
    requires ready { Ready view.now.source.schema.bytes.now view.now.source.payload.now start (row + 1) view.now.source.judging (whole_in view.now.source.schema.bytes.now view.now.source.payload.now depth ty (map t.a t.b) start n start) }
    requires kind_nonzero { (0 < (row_at (table_of view.now.source.schema.bytes.now) t.a).kind) × ((row_at (table_of view.now.source.schema.bytes.now) t.a).kind < 14)
        × (0 < (row_at (table_of view.now.source.schema.bytes.now) t.b).kind) × (0 < n) × (n ≤ 64) }
    ensures { Held view.now.shown.now view.now.source.schema.bytes.now view.now.source.payload.now depth ty (map t.a t.b) start n start row sheet.old (told_walk result) sheet.new }
{
    let m = MapType {
        ty,
        key: t.a,
        val: t.b,
    };
    if n <= FEW_KEYS {
        let mut keys = [0usize; 2 * (FEW_KEYS + FLAG_CELLS)];
        return read_pairs(view, sheet, &mut keys, m, n, start, depth, row);
    }
    let mut keys = [0usize; 2 * (MOST_PAIRS + FLAG_CELLS)];
    read_pairs(view, sheet, &mut keys, m, n, start, depth, row)
}

// The n pairs of a map from a place on; what `keys` holds afterwards means nothing. A value that is an empty map takes no call of the cycle.
#[cycle(walk)]
fn read_pairs(
    view: &View,
    sheet: &mut [u32],
    keys: &mut [usize],
    m: MapType,
    n: usize,
    start: usize,
    depth: usize,
    row: usize,
) -> Result<Past, Refused>
    requires ready { Ready view.now.source.schema.bytes.now view.now.source.payload.now start (row + 1) view.now.source.judging (whole_in view.now.source.schema.bytes.now view.now.source.payload.now depth m.ty (map m.key m.val) start n start) }
    requires kind_nonzero { (0 < (row_at (table_of view.now.source.schema.bytes.now) m.key).kind) × ((row_at (table_of view.now.source.schema.bytes.now) m.key).kind < 14)
        × (0 < (row_at (table_of view.now.source.schema.bytes.now) m.val).kind) × (0 < n) × (n ≤ 64) }
    requires n_in_bounds { view.now.source.judging ≡ true → n + 4 ≤ length keys.old / 2 }
    ensures { Held view.now.shown.now view.now.source.schema.bytes.now view.now.source.payload.now depth m.ty (map m.key m.val) start n start row sheet.old (told_walk result) sheet.new }
{
    let p = view.source.payload;
    let judging = view.source.judging;
    let k = view.source.schema.known_row(m.key as usize);
    let v = view.source.schema.known_row(m.val as usize);
    let mut here = start;
    let mut below = row + 1;
    let mut sum: u32 = 0;
    for i in 0..n {
        if depth == 0 {
            return Refusal::TooDeep.at(here);
        }
        let key_content = read_key(p, sheet, keys, m.key, k, i, here, below, judging)?;
        here = key_content.to;
        below = below + 1;
        if needs_walker(p, v, here) {
            let past = read_composite(view, sheet, m.val, v, here, depth - 1, below)?;
            here = past.next;
            below = past.row;
            sum = sum + past.due;
        } else {
            let content = read_childless(p, sheet, m.val, v, here, below, judging)?;
            here = content.to;
            below = below + 1;
        }
    }
    put_row(sheet, row, m.ty, start, here - start, n);
    Ok(Past {
        due: sum + (n * (n - 1) / 2) as u32,
        next: here,
        row: below,
    })
}

// The fields of a struct of type ty: n from the first on, those whose bits are set in `known`, `ones` of them. Its bitmap stands at `place`, its fields from
// `start` on.
#[derive(Clone, Copy)]
struct Fields {
    ty: u32,
    first: usize,
    n: usize,
    known: u64,
    ones: usize,
    place: usize,
    start: usize,
}

// An inner struct of type ty, whose row is t. An unknown bit is refused.
#[cycle(walk)]
fn read_struct(
    view: &View,
    sheet: &mut [u32],
    ty: u32,
    t: TypeRow,
    at: usize,
    depth: usize,
    row: usize,
) -> Result<Past, Refused>
    requires { Ready view.now.source.schema.bytes.now view.now.source.payload.now at row view.now.source.judging (value_in view.now.source.schema.bytes.now view.now.source.payload.now (suc depth) ty at)
        × (t ≡ row_at (table_of view.now.source.schema.bytes.now) ty) × (t.kind ≡ 16) }
    ensures { Valued view.now.shown.now view.now.source.schema.bytes.now view.now.source.payload.now (suc depth) ty at row sheet.old (told_walk result) sheet.new }
{
    let first = t.a as usize;
    let n = t.b as usize;
    let bits = presence(
        view.source.schema.bytes,
        view.source.payload,
        first,
        n,
        at,
        view.source.judging,
    )?;
    if bits.unknown != 0 {
        return Refusal::UnknownBit.at(at);
    }
    let f = Fields {
        ty,
        first,
        n,
        known: bits.known,
        ones: bits.ones,
        place: at,
        start: bits.start,
    };
    if shown_of(view.shown, ty) < n {
        return read_shown_fields(view, sheet, f, depth, row);
    }
    read_fields(view, sheet, f, depth, row)
}

// The fields of a struct, and its own row. It is inlined at each call, since over the sheet of no cells that added fields have its stores fall away.
#[inline(always)]
#[cycle(walk)]
fn read_fields(
    view: &View,
    sheet: &mut [u32],
    f: Fields,
    depth: usize,
    row: usize,
) -> Result<Past, Refused>
    requires { ReadyFor view.now.source.schema.bytes.now view.now.source.payload.now depth f row view.now.source.judging × OfCount view.now.source.schema.bytes.now f }
    ensures { HeldBy view.now.shown.now view.now.source.schema.bytes.now view.now.source.payload.now depth f row sheet.old (told_walk result) sheet.new }
{
    let l = view.source.schema.layout();
    let mut bits = f.known;
    let mut here = f.start;
    let mut below = row + 1;
    let mut sum: u32 = 0;
    for i in f.first..f.first + f.n {
        if bits % 2 == 1 {
            let past = read_field(view, l, sheet, i, here, depth, below)?;
            here = past.next;
            below = past.row;
            sum = sum + past.due;
        }
        bits = bits / 2;
    }
    put_row(sheet, row, f.ty, f.place, here - f.place, f.ones);
    Ok(Past {
        due: sum,
        next: here,
        row: below,
    })
}

// The field i of a struct. Most fields are scalars, strings or bytes: these are read here, without a call of their own.
#[cycle(walk)]
fn read_field(
    view: &View,
    l: Layout,
    sheet: &mut [u32],
    i: usize,
    at: usize,
    depth: usize,
    row: usize,
) -> Result<Past, Refused>
    requires { Ready view.now.source.schema.bytes.now view.now.source.payload.now at row view.now.source.judging
        (value_in view.now.source.schema.bytes.now view.now.source.payload.now depth (field_row_of (table_of view.now.source.schema.bytes.now) i).ty at)
        × Laid view.now.source.schema.bytes.now l × (0 < (row_at (table_of view.now.source.schema.bytes.now) (field_row_of (table_of view.now.source.schema.bytes.now) i).ty).kind) }
    ensures { Valued view.now.shown.now view.now.source.schema.bytes.now view.now.source.payload.now depth (field_row_of (table_of view.now.source.schema.bytes.now) i).ty at row sheet.old (told_walk result) sheet.new }
{
    if depth == 0 {
        return Refusal::TooDeep.at(at);
    }
    let ty = field_row(view.source.schema.bytes, l, i).ty;
    let t = view.source.schema.known_row(ty as usize);
    if t.kind > Kind::Bytes as u32 {
        return read_composite(view, sheet, ty, t, at, depth - 1, row);
    }
    let content = content(
        view.source.payload,
        t.kind as usize,
        at,
        view.source.judging,
    )?;
    put_row(sheet, row, ty, content.from, content.to - content.from, 0);
    Ok(Past {
        due: 0,
        next: content.to,
        row: row + 1,
    })
}

// The fields of a struct of which fewer are shown than it has: the others are read without a row. The struct's own row is written again, with its whole length.
#[cycle(walk)]
fn read_shown_fields(
    view: &View,
    sheet: &mut [u32],
    f: Fields,
    depth: usize,
    row: usize,
) -> Result<Past, Refused>
    requires { ReadyFor view.now.source.schema.bytes.now view.now.source.payload.now depth f row view.now.source.judging × OfType view.now.source.schema.bytes.now f × (get_or view.now.shown.now f.ty 0 < f.n) }
    ensures { ShownBy view.now.shown.now view.now.source.schema.bytes.now view.now.source.payload.now depth f row sheet.old (told_walk result) sheet.new }
{
    let m = shown_of(view.shown, f.ty);
    let mine = low_bits(f.known, m);
    let ones = ones_in(mine);
    let ours = Fields {
        ty: f.ty,
        first: f.first,
        n: m,
        known: mine,
        ones,
        place: f.place,
        start: f.start,
    };
    let past = read_fields(view, sheet, ours, depth, row)?;
    let added = read_added(view, f, past.next, depth, row)?;
    put_row(sheet, row, f.ty, f.place, added.next - f.place, ones);
    Ok(Past {
        due: past.due + added.due,
        next: added.next,
        row: past.row,
    })
}

// The fields of a struct after those that are shown, from a place on. They have no rows: none is lent to write them into.
#[cycle(walk)]
fn read_added(view: &View, f: Fields, at: usize, depth: usize, row: usize) -> Result<Past, Refused>
    requires ready_for { ReadyFor view.now.source.schema.bytes.now view.now.source.payload.now depth (added_to f (get_or view.now.shown.now f.ty 0) at) row view.now.source.judging }
    requires ty_bound { (f.ty < 256) × (f.n ≤ 64) × (get_or view.now.shown.now f.ty 0 < f.n) }
    ensures { (l : List ℕ) × (after : List ℕ) × HeldBy view.now.shown.now view.now.source.schema.bytes.now view.now.source.payload.now depth (added_to f (get_or view.now.shown.now f.ty 0) at) row l (told_walk result) after }
{
    let m = shown_of(view.shown, f.ty);
    let rest = low_bits(f.known >> m, f.n - m);
    let added = Fields {
        ty: f.ty,
        first: f.first + m,
        n: f.n - m,
        known: rest,
        ones: ones_in(rest),
        place: at,
        start: at,
    };
    // No cell of it is lent.
    let mut none = [0u32; 1];
    read_fields(view, &mut none[..0], added, depth, row)
}

// The root after its known fields, as these were read. Each unknown bit asks for a byte or more of a tail; without one there is none.
fn end_root(p: &[u8], past: Past, unknown: usize) -> Result<Past, Refused>
    requires { past.next ≤ length p.now }
    ensures { Ended p.now past.due past.next past.row unknown (told_walk result) }
{
    let rest = p.len() - past.next;
    if (unknown == 0) & (rest != 0) {
        return Refusal::Surplus.at(past.next);
    }
    if rest < unknown {
        return Refusal::Cut.at(past.next);
    }
    Ok(past)
}

// The fields of the root, all of them or those that are shown. `read_struct` chooses for itself: a function with two callers would copy the fields once more.
fn read_root_fields(view: &View, sheet: &mut [u32], f: Fields) -> Result<Past, Refused>
    requires { ReadyFor view.now.source.schema.bytes.now view.now.source.payload.now 15 f 0 view.now.source.judging × OfType view.now.source.schema.bytes.now f × OfCount view.now.source.schema.bytes.now f }
    ensures { ShownBy view.now.shown.now view.now.source.schema.bytes.now view.now.source.payload.now 15 f 0 sheet.old (told_walk result) sheet.new }
{
    if shown_of(view.shown, f.ty) < f.n {
        return read_shown_fields(view, sheet, f, limit::BELOW_ROOT, 0);
    }
    read_fields(view, sheet, f, limit::BELOW_ROOT, 0)
}

// The root, a struct of type ty that has n fields from the first on. What follows its known fields is the tail, which is not read.
pub fn root(
    view: &View,
    sheet: &mut [u32],
    ty: u32,
    first: usize,
    n: usize,
) -> Result<Past, Refused>
    requires ready { Ready view.now.source.schema.bytes.now view.now.source.payload.now 0 0 view.now.source.judging
        (root_in view.now.source.schema.bytes.now view.now.source.payload.now ty (fields_from (table_of view.now.source.schema.bytes.now) first n)) }
    requires ty_value { (shape_in view.now.source.schema.bytes.now ty ≡ struct (fields_from (table_of view.now.source.schema.bytes.now) first n)) × (0 < n) × (n ≤ 64)
        × (first + n ≤ length (table_of view.now.source.schema.bytes.now).fields) }
    ensures { Rooted view.now.shown.now view.now.source.schema.bytes.now view.now.source.payload.now ty (fields_from (table_of view.now.source.schema.bytes.now) first n) sheet.old (told_walk result) sheet.new }
{
    let bits = presence(
        view.source.schema.bytes,
        view.source.payload,
        first,
        n,
        0,
        view.source.judging,
    )?;
    let f = Fields {
        ty,
        first,
        n,
        known: bits.known,
        ones: bits.ones,
        place: 0,
        start: bits.start,
    };
    let past = read_root_fields(view, sheet, f)?;
    end_root(view.source.payload, past, bits.unknown)
}
