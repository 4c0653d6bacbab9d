// Whether a new table extends an old one, so that what was written by the old can be read by the new.
ghost use Rattle.std.specs.Prelude.{◌≡◌, ◌^◌, ◌<◌};
ghost use Rattle.schema.specs.Table.{row_at, bitmap_bytes};
ghost use Rattle.schema.specs.File.{table_of};
ghost use Rattle.schema.specs.Extend.{same_field, field_kept, struct_kept, row_kept_of, rows_kept, same_method, method_kept, methods_kept, widened, bitmap_kept, bitmaps_kept, extended, extension};
ghost use Rattle.table.specs.Told.{told_extends};

use crate::good::Schema;
use crate::rows::{Names, Sections};
use crate::search::every;
use constants::kind::Kind;
use constants::refusal::Refused;
use schema::{Field, Method, TypeRow};
use wire::bitmap::{BYTE_BITS, SPARE_BITS};

fn same_field(f: Field, g: Field) -> bool
    ensures { result ≡ same_field f g }
{
    f == g
}

// Whether field i of a struct that had row r and has row q is kept.
#[tactic(auto, unfolding(schema::specs::Extend::field_kept))]
fn keeps_field(old: &Sections, new: &Sections, r: TypeRow, q: TypeRow, i: usize) -> bool
    requires { i < 2 ^ 32 }
    ensures { result ≡ field_kept (table_of old.now.bytes.now) (table_of new.now.bytes.now) r q i }
{
    let g = new.field((q.a as usize) + i);
    if i < r.b as usize {
        same_field(g, old.field((r.a as usize) + i))
    } else {
        g.optional == 1
    }
}

fn keeps_struct(old: &Sections, new: &Sections, r: TypeRow, q: TypeRow) -> bool
    ensures { result ≡ struct_kept (table_of old.now.bytes.now) (table_of new.now.bytes.now) r q }
{
    (r.b <= q.b) && every(q.b as usize, |i| keeps_field(old, new, r, q, i))
}

// Whether the row of a type is kept.
#[tactic(auto, unfolding(schema::specs::Extend::row_kept_of))]
fn keeps_row(old: &Sections, new: &Sections, t: usize) -> bool
    ensures { result ≡ row_kept_of (table_of old.now.bytes.now) (table_of new.now.bytes.now) (row_at (table_of old.now.bytes.now) t) (row_at (table_of new.now.bytes.now) t) }
{
    let r = old.row(t);
    let q = new.row(t);
    if q.kind != r.kind {
        return false;
    }
    if r.kind == Kind::Struct as u32 {
        keeps_struct(old, new, r, q)
    } else {
        (q.a == r.a) & (q.b == r.b)
    }
}

fn keeps_rows(old: &Sections, new: &Sections) -> bool
    ensures { result ≡ rows_kept (table_of old.now.bytes.now) (table_of new.now.bytes.now) }
{
    every(old.layout.types, |t| keeps_row(old, new, t))
}

fn same_method(m: Method, n: Method) -> bool
    ensures { result ≡ same_method m n }
{
    m == n
}

#[tactic(auto, using(crate::proofs::Files::laid_methods), unfolding(schema::specs::Extend::method_kept))]
fn keeps_method(new: &Sections, m: Method) -> bool
    ensures { result ≡ method_kept (table_of new.now.bytes.now) m }
{
    match new.find_among(new.layout.methods, Names::of(m)) {
        Some(j) => same_method(new.method(j), m),
        None => false,
    }
}

fn keeps_methods(old: &Sections, new: &Sections) -> bool
    ensures { result ≡ methods_kept (table_of old.now.bytes.now) (table_of new.now.bytes.now) }
{
    every(old.layout.methods, |i| keeps_method(new, old.method(i)))
}

#[tactic(auto, using(crate::proofs::Files::laid_types), unfolding(schema::specs::Extend::widened))]
fn widens(old: &Sections, new: &Sections) -> bool
    ensures { result ≡ widened (table_of old.now.bytes.now) (table_of new.now.bytes.now) }
{
    (old.layout.types <= new.layout.types) & (keeps_rows(old, new) & keeps_methods(old, new))
}

// The whole bytes of a bitmap with a bit for each of n fields.
fn bitmap_bytes(n: u32) -> usize
    ensures { result ≡ bitmap_bytes n }
{
    ((n as usize) + SPARE_BITS) / BYTE_BITS
}

// Whether the bitmap of a type keeps its length, if the type is a struct.
#[tactic(auto, unfolding(schema::specs::Extend::bitmap_kept))]
fn keeps_bitmap(old: &Sections, new: &Sections, t: usize) -> bool
    ensures { result ≡ bitmap_kept (row_at (table_of old.now.bytes.now) t) (row_at (table_of new.now.bytes.now) t) }
{
    let r = old.row(t);
    (r.kind != Kind::Struct as u32) | (bitmap_bytes(new.row(t).b) == bitmap_bytes(r.b))
}

fn keeps_bitmaps(old: &Sections, new: &Sections) -> bool
    ensures { result ≡ bitmaps_kept (table_of old.now.bytes.now) (table_of new.now.bytes.now) }
{
    every(old.layout.types, |t| keeps_bitmap(old, new, t))
}

impl<'a> Schema<'a> {
    // Whether another table extends this one, but for the bitmaps, which may grow.
    pub fn is_widened(&self, new: &Schema) -> bool
        ensures { result ≡ widened (table_of self.now.bytes.now) (table_of new.now.bytes.now) }
    {
        widens(&self.sections(), &new.sections())
    }

    #[tactic(auto, unfolding(schema::specs::Extend::extended))]
    pub fn is_extended(&self, new: &Schema) -> bool
        ensures { result ≡ extended (table_of self.now.bytes.now) (table_of new.now.bytes.now) }
    {
        let l = self.sections();
        let k = new.sections();
        widens(&l, &k) & keeps_bitmaps(&l, &k)
    }
}

// The answer for any two files: yes or no, or the refusal of the first that is not good, the old one first.
#[tactic(auto, unfolding(schema::specs::Extend::extension))]
pub fn extends(old: &[u8], new: &[u8]) -> Result<bool, Refused>
    ensures { told_extends result ≡ extension old.now new.now }
{
    let old = Schema::check(old)?;
    let new = Schema::check(new)?;
    Ok(old.is_extended(&new))
}
