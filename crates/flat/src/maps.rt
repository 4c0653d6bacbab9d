// Arrays of maps that hold nothing but scalars, strings and bytes. One array of keys serves all of them; what reads a map has one call site, and is inlined there.
ghost use Rattle.std.specs.Prelude.{◌≡◌, true, false, ◌+◌, ◌/◌, ◌≤◌, ◌<◌, length};
ghost use Rattle.parse.specs.Reader.{cursor_at, Accepted};
ghost use Rattle.schema.specs.Table.{row_at, array, map};
ghost use Rattle.schema.specs.File.{table_of};
ghost use Rattle.schema.specs.Check.{IsGood};
ghost use Rattle.value.specs.Comparisons.{key_comparisons};
ghost use Rattle.value.specs.Read.{own};
ghost use Rattle.walks.specs.Shape.{leaf_shape, shape_in};
ghost use Rattle.walks.specs.Keys.{Kept};
ghost use Rattle.flat.specs.Walk.{value_in, whole_in, Ready};
ghost use Rattle.flat.specs.Flat.{PairsIn, PairsReady, KeyTaken, ValuedFlat, HeldFlat, HeldPairs};
ghost use Rattle.flat.specs.Told.{told_span, told_walk};

use crate::keys::is_repeated;
use crate::leaf::{Extent, content, map_count};
use crate::sheet::put_row;
use crate::{Past, Source};
use constants::kind::Kind;
use constants::refusal::{Refusal, Refused};
use schema::TypeRow;
use table::access::type_row;
use table::good::Schema;
use value::MOST_PAIRS;
use walks::key::{FLAG_CELLS, clear_flags};

// A map's type, and those of its keys and values.
#[derive(Clone, Copy)]
pub struct MapType {
    pub ty: u32,
    pub key: u32,
    pub val: u32,
}

// Whether a type's row is that of a map whose values are scalars, strings or bytes, as keys always are.
pub fn holds_leaves(s: &[u8], t: TypeRow) -> bool
    requires { IsGood s.now }
    ensures { result ≡ true → (t.kind ≡ 15) × ((row_at (table_of s.now) t.b).kind < 14) }
{
    if t.kind != Kind::Map as u32 {
        return false;
    }
    let v = type_row(s, t.b as usize);
    v.kind < Kind::Array as u32
}

// The comparisons due of the keys of a map of n pairs.
fn key_comparisons(n: usize) -> u32
    requires { n ≤ 64 }
    ensures { result ≡ key_comparisons n }
{
    if n == 0 {
        return 0;
    }
    (n * (n - 1) / 2) as u32
}

// The content of the next key, after the first i of a map, and its row; a key that is among those is refused. `reader::pairs::read_key` does the
// same for the cycle of walkers: with one function for both, maps are read in up to twice the time (docs/DECISIONS.md).
fn next_key(
    source: &Source,
    sheet: &mut [u32],
    keys: &mut [usize],
    ty: u32,
    kind: usize,
    i: usize,
    at: usize,
    row: usize,
) -> Result<Extent, Refused>
    requires p_len_bound { (at ≤ length source.now.payload.now) × (0 < kind) × (kind < 14) × (source.now.judging ≡ false → Accepted (own (leaf_shape kind) (cursor_at source.now.payload.now at))) × (row ≤ 16384) }
    requires i_in_bounds { source.now.judging ≡ true → (i + 4 < length keys.old / 2) × Kept source.now.payload.now keys.old true i }
    ensures { KeyTaken source.now.payload.now at (own (leaf_shape kind) (cursor_at source.now.payload.now at)) source.now.judging ty i row sheet.old keys.old (told_span result) sheet.new keys.new }
{
    let content = content(source.payload, kind, at, source.judging)?;
    let length = content.to - content.from;
    if is_repeated(
        source.payload,
        keys,
        i,
        content.from,
        length,
        source.judging,
    ) {
        return Refusal::RepeatedKey.at(at);
    }
    put_row(sheet, row, ty, content.from, length, 0);
    Ok(content)
}

// The n pairs of a map from a place on. What `keys` holds afterwards means nothing.
fn leaf_pairs(
    source: &Source,
    sheet: &mut [u32],
    keys: &mut [usize],
    m: MapType,
    n: usize,
    start: usize,
    depth: usize,
    row: usize,
) -> Result<Past, Refused>
    requires pairs_ready { PairsReady source.now.schema.bytes.now source.now.payload.now depth m.ty m.key m.val n start row source.now.judging × (source.now.judging ≡ true → n + 4 ≤ length keys.old / 2) }
    requires kind_nonzero { (0 < (row_at (table_of source.now.schema.bytes.now) m.val).kind) × ((row_at (table_of source.now.schema.bytes.now) m.val).kind < 14) }
    ensures { HeldPairs source.now.schema.bytes.now source.now.payload.now depth m.ty m.key m.val start n start row sheet.old (told_walk result) sheet.new }
{
    let k = source.schema.known_row(m.key as usize).kind as usize;
    let v = source.schema.known_row(m.val as usize).kind as usize;
    let mut here = start;
    let mut below = row + 1;
    for i in 0..n {
        if depth == 0 {
            return Refusal::TooDeep.at(here);
        }
        let key_content = next_key(source, sheet, keys, m.key, k, i, here, below)?;
        let content = content(source.payload, v, key_content.to, source.judging)?;
        put_row(
            sheet,
            below + 1,
            m.val,
            content.from,
            content.to - content.from,
            0,
        );
        here = content.to;
        below = below + 2;
    }
    put_row(sheet, row, m.ty, start, here - start, n);
    Ok(Past {
        due: key_comparisons(n),
        next: here,
        row: below,
    })
}

// A map.
fn leaf_map(
    source: &Source,
    sheet: &mut [u32],
    keys: &mut [usize],
    m: MapType,
    at: usize,
    depth: usize,
    row: usize,
) -> Result<Past, Refused>
    requires ready { Ready source.now.schema.bytes.now source.now.payload.now at row source.now.judging (value_in source.now.schema.bytes.now source.now.payload.now depth m.ty at) × (shape_in source.now.schema.bytes.now m.ty ≡ map m.key m.val) }
    requires pairs_in { PairsIn (table_of source.now.schema.bytes.now) m.key m.val × (68 ≤ length keys.old / 2) }
    ensures { ValuedFlat source.now.schema.bytes.now source.now.payload.now depth m.ty at row sheet.old (told_walk result) sheet.new }
{
    if depth == 0 {
        return Refusal::TooDeep.at(at);
    }
    let count = map_count(source.payload, at)?;
    if MOST_PAIRS < count.n {
        return Refusal::MapTooLong.at(at);
    }
    leaf_pairs(source, sheet, keys, m, count.n, count.start, depth - 1, row)
}

// The n elements of an array from a place on, maps of one type. They share one slice for their keys, whose flags are cleared before each.
pub fn maps_of(
    source: &Source,
    sheet: &mut [u32],
    ty: u32,
    m: MapType,
    n: usize,
    start: usize,
    depth: usize,
    row: usize,
) -> Result<Past, Refused>
    requires ready { Ready source.now.schema.bytes.now source.now.payload.now start (row + 1) source.now.judging (whole_in source.now.schema.bytes.now source.now.payload.now depth ty (array m.ty) start n start)
        × (shape_in source.now.schema.bytes.now m.ty ≡ map m.key m.val) × (n ≤ 16384) }
    requires pairs_in { PairsIn (table_of source.now.schema.bytes.now) m.key m.val }
    ensures { HeldFlat source.now.schema.bytes.now source.now.payload.now depth ty m.ty start n start row sheet.old (told_walk result) sheet.new }
{
    let mut keys = [0usize; 2 * (MOST_PAIRS + FLAG_CELLS)];
    let mut here = start;
    let mut below = row + 1;
    let mut sum: u32 = 0;
    for _ in 0..n {
        clear_flags(&mut keys);
        let past = leaf_map(source, sheet, &mut keys, m, here, depth, below)?;
        here = past.next;
        below = past.row;
        sum = sum + past.due;
    }
    put_row(sheet, row, ty, start, here - start, n);
    Ok(Past {
        due: sum,
        next: here,
        row: below,
    })
}

// The same of slices, as docs/PROVING.md names it.
pub fn read_maps(
    s: &[u8],
    p: &[u8],
    sheet: &mut [u32],
    ty: u32,
    elem: u32,
    key: u32,
    val: u32,
    n: usize,
    start: usize,
    depth: usize,
    row: usize,
    judging: bool,
) -> Result<Past, Refused>
    requires ready { Ready s.now p.now start (row + 1) judging (whole_in s.now p.now depth ty (array elem) start n start) × (shape_in s.now elem ≡ map key val) × (n ≤ 16384) }
    requires pairs_in { PairsIn (table_of s.now) key val }
    ensures { HeldFlat s.now p.now depth ty elem start n start row sheet.old (told_walk result) sheet.new }
{
    let source = Source {
        schema: Schema::of_good(s),
        payload: p,
        judging,
    };
    let m = MapType { ty: elem, key, val };
    maps_of(&source, sheet, ty, m, n, start, depth, row)
}
