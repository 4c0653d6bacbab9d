// Reading with the writer's table beside ours: the payload is read wholly by theirs, and shown by ours.
ghost use Rattle.std.specs.Prelude.{◌≡◌, true, cond, ◌≤◌, eqb};
ghost use Rattle.schema.specs.Extend.{widened};
ghost use Rattle.schema.specs.File.{table_of};
ghost use Rattle.reader.specs.Entry.{Outcome};
ghost use Rattle.reader.specs.Beside.{Knows, beside_payload, beside_outcome};
ghost use Rattle.reader.specs.Told.{told};

use crate::{Shown, read_shown};
use constants::kind::Kind;
use constants::limit;
use constants::refusal::{Refusal, Refused};
use schema::TypeRow;
use table::good::Schema;
use table::rows::row;

// How many fields a type's row says; 0 for a type that is no struct.
fn fields_of(t: TypeRow) -> u8
    requires { t.kind ≡ 16 → t.b ≤ 64 }
    ensures { result ≡ cond (eqb t.kind 16) t.b 0 }
{
    if t.kind == Kind::Struct as u32 {
        return t.b as u8;
    }
    0
}

// How many fields ours has of each struct; 0 for any other type.
fn known_fields(ours: &Schema) -> [u8; limit::TYPES]
    ensures { Knows result ours.now.bytes.now }
{
    let l = ours.layout();
    let mut shown = [0u8; limit::TYPES];
    for i in 0..l.types {
        shown[i] = fields_of(row(ours.bytes, l, i));
    }
    shown
}

// By two tables, of which theirs extends ours but for the bitmaps' bytes.
fn read_widened(
    ours: &Schema,
    theirs: &Schema,
    ty: u32,
    payload: &[u8],
    sheet: &mut [u32],
) -> Result<Shown, Refused>
    requires { widened (table_of ours.now.bytes.now) (table_of theirs.now.bytes.now) ≡ true }
    ensures { Outcome.outcome (told result) sheet.new ≡ beside_payload ours.now.bytes.now theirs.now.bytes.now ty payload.now sheet.old }
{
    if ours.type_row(ty as usize).kind != Kind::Struct as u32 {
        return Refusal::NoStruct.at(0);
    }
    let shown = known_fields(ours);
    read_shown(&shown, theirs, ty, payload, sheet)
}

// By any two tables: the refusal of ours comes first, then theirs, then that theirs is no such extension.
#[tactic(auto, unfolding(crate::specs::Beside::beside_outcome))]
pub fn read_beside(
    ours: &[u8],
    theirs: &[u8],
    ty: u32,
    payload: &[u8],
    sheet: &mut [u32],
) -> Result<Shown, Refused>
    ensures { Outcome.outcome (told result) sheet.new ≡ beside_outcome ours.now theirs.now ty payload.now sheet.old }
{
    let ours = Schema::check(ours)?;
    let theirs = Schema::check(theirs)?;
    if !ours.is_widened(&theirs) {
        return Refusal::NoExtension.at(0);
    }
    read_widened(&ours, &theirs, ty, payload, sheet)
}
