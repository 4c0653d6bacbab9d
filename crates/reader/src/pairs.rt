// What the walk over a map's pairs does outside the cycle: the next key, and values that no walker is called for.
// Each has one call site, and is inlined there.
ghost use Rattle.std.specs.Prelude.{◌≡◌, true, false, ◌+◌, ◌/◌, ◌≤◌, ◌<◌, length};
ghost use Rattle.parse.specs.Reader.{cursor_at, Accepted};
ghost use Rattle.value.specs.Read.{own};
ghost use Rattle.walks.specs.Shape.{leaf_shape};
ghost use Rattle.walks.specs.Keys.{Kept};
ghost use Rattle.flat.specs.Told.{told_span};
ghost use Rattle.flat.specs.Flat.{KeyTaken};
ghost use Rattle.reader.specs.Childless.{IsChildless, ChildlessReady, ChildlessRead};

use constants::kind::Kind;
use constants::refusal::{Refusal, Refused};
use flat::keys::is_repeated;
use flat::leaf::{Extent, content, is_empty_map};
use flat::sheet::put_row;
use schema::TypeRow;

// The content of the next key, after the first i of a map, and its row; a key that is among those is refused. The same as `flat::maps` has for its own
// maps: with one call site each is inlined there (docs/DECISIONS.md, which names this one), and one function for both would not be.
pub fn read_key(
    p: &[u8],
    sheet: &mut [u32],
    keys: &mut [usize],
    ty: u32,
    t: TypeRow,
    i: usize,
    at: usize,
    row: usize,
    judging: bool,
) -> Result<Extent, Refused>
    requires p_len_bound { (length p.now ≤ 16384) × (at ≤ length p.now) × (0 < t.kind) × (t.kind < 14) × (judging ≡ false → Accepted (own (leaf_shape t.kind) (cursor_at p.now at))) × (row ≤ 16384) }
    requires i_in_bounds { judging ≡ true → (i + 4 < length keys.old / 2) × Kept p.now keys.old true i }
    ensures { KeyTaken p.now at (own (leaf_shape t.kind) (cursor_at p.now at)) judging ty i row sheet.old keys.old (told_span result) sheet.new keys.new }
{
    let content = content(p, t.kind as usize, at, judging)?;
    let length = content.to - content.from;
    if is_repeated(p, keys, i, content.from, length, judging) {
        return Refusal::RepeatedKey.at(at);
    }
    put_row(sheet, row, ty, content.from, length, 0);
    Ok(content)
}

// Whether a value is an array, a map or a struct, other than a map without pairs.
pub fn needs_walker(p: &[u8], t: TypeRow, at: usize) -> bool
    ensures { (result ≡ true → 13 < t.kind) × (result ≡ false → IsChildless p.now t.kind at) }
{
    if t.kind < Kind::Array as u32 {
        return false;
    }
    !is_empty_map(p, t.kind, at)
}

// A scalar, a string, bytes or a map without pairs.
pub fn read_childless(
    p: &[u8],
    sheet: &mut [u32],
    ty: u32,
    t: TypeRow,
    at: usize,
    row: usize,
    judging: bool,
) -> Result<Extent, Refused>
    requires { ChildlessReady p.now t at row judging }
    ensures { ChildlessRead p.now ty t at row sheet.old (told_span result) sheet.new }
{
    if t.kind > Kind::Bytes as u32 {
        put_row(sheet, row, ty, at + 1, 0, 0);
        return Ok(Extent {
            from: at + 1,
            to: at + 1,
        });
    }
    let content = content(p, t.kind as usize, at, judging)?;
    put_row(sheet, row, ty, content.from, content.to - content.from, 0);
    Ok(content)
}
