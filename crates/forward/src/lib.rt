// The forwarding writer: the rows of a sheet over their bytes, written as a payload with the root's unknown bits kept and a tail after the known fields.
#![tactic(auto)]

ghost use Rattle.std.specs.Prelude.{◌≡◌, List, ◌+◌, ◌/◌, ◌≤◌, ◌<◌, length, IfErr};
ghost use Rattle.buffer.specs.Span.{span};
ghost use Rattle.buffer.specs.Store.{put};
ghost use Rattle.wire.specs.Little.{little};
ghost use Rattle.schema.specs.declared.Field.{Field};
ghost use Rattle.schema.specs.Table.{bitmap_bytes};
ghost use Rattle.value.specs.Sheet.{rows_of};
ghost use Rattle.value.specs.Read.{unknown_bits};
ghost use Rattle.writer.specs.Told.{told};
ghost use Rattle.writer.specs.Entry.{outcome};
ghost use Rattle.forward.specs.Forward.{root_place, suits, fault_of};
ghost use Rattle.forward.specs.Told.{told_fault};
ghost use Rattle.forward.specs.Entry.{sheet_forwarded, forward_outcome};

use constants::kind::Kind;
use constants::refusal::{Refusal, Refused};
use constants::{format, limit};
use table::good::Schema;
use wire::bitmap;
use writer::leaf::wide;
use writer::put::put_span;
use writer::rows::Rows;
use writer::walk::root;

// The bytes of the source that stand behind the known fields.
#[derive(Clone, Copy)]
pub struct Tail {
    pub place: usize,
    pub length: usize,
}

// The place of the root's row; without a row 0.
fn root_place(sheet: &[u32]) -> usize
    ensures { result ≡ root_place (rows_of sheet.now) }
{
    if sheet.len() < format::ROW_CELLS {
        return 0;
    }
    wide(sheet[1])
}

// How many bits beyond n fields are set in the presence bytes at a place.
fn unknown_at(source: &[u8], place: usize, n: usize) -> usize
    requires { (n ≤ 64) × (place + (n + 7) / 8 ≤ length source.now) }
    ensures { (fs : List Field) → length fs ≡ n → result ≡ unknown_bits fs (little (span source.now place (bitmap_bytes (length fs)))) }
{
    bitmap::read(source, place, n).unknown as usize
}

// Whether a tail of n bytes is no shorter than the unknown bits, and not present without any.
fn is_suiting(unknown: usize, n: usize) -> bool
    ensures { result ≡ suits unknown n }
{
    (unknown <= n) & ((unknown != 0) | (n == 0))
}

// The first fault of a tail in so many bytes, or of the whole with it: it names no row.
fn fault_of(
    size: usize,
    unknown: usize,
    tail: Tail,
    plain: usize,
    room: usize,
) -> Result<(), Refused>
    ensures fault { told_fault result ≡ fault_of size unknown tail.place tail.length plain room }
    ensures place { IfErr result (λ e. e.place ≡ 0) }
{
    if size < tail.place {
        return Refusal::Outside.at(0);
    }
    if size - tail.place < tail.length {
        return Refusal::Outside.at(0);
    }
    if !is_suiting(unknown, tail.length) {
        return Refusal::Sheet.at(0);
    }
    if limit::PAYLOAD < plain {
        return Refusal::PayloadTooLong.at(0);
    }
    if limit::PAYLOAD - plain < tail.length {
        return Refusal::PayloadTooLong.at(0);
    }
    if room < plain + tail.length {
        return Refusal::OutputTooShort.at(0);
    }
    Ok(())
}

// Puts the presence bytes, as they stand at the root's place, over those that the plain writer wrote, and the tail after all that it wrote, at pos.
fn keep(out: &mut [u8], pos: usize, source: &[u8], place: usize, size: usize, tail: Tail)
    requires { (pos ≤ 16385) × (place + size ≤ length source.now) × (tail.place + tail.length ≤ length source.now) }
    ensures { out.new ≡ put (put out.old 0 (span source.now place size)) pos (span source.now tail.place tail.length) }
{
    put_span(out, 0, source, place, size);
    put_span(out, pos, source, tail.place, tail.length);
}

// The sheet's rows over the source, with a tail in the source, forwarded as a struct of type ty by a good table. The first walk judges and measures;
// the second writes what the plain writer writes, where all fits.
pub fn forward_sheet(
    schema: &Schema,
    ty: u32,
    sheet: &[u32],
    source: &[u8],
    tail: Tail,
    out: &mut [u8],
) -> Result<usize, Refused>
    ensures { outcome (told result) out.new ≡ sheet_forwarded schema.now.bytes.now ty sheet.now source.now tail.place tail.length out.old }
{
    let t = schema.type_row(ty as usize);
    if t.kind != Kind::Struct as u32 {
        return Refusal::NoStruct.at(0);
    }
    let first = t.a as usize;
    let n = t.b as usize;
    let judged = Rows {
        schema: *schema,
        sheet,
        source,
        judging: true,
    };
    let pos = root(&judged, &mut out[..0], ty, first, n)?.pos;
    let place = root_place(sheet);
    let unknown = unknown_at(source, place, n);
    fault_of(source.len(), unknown, tail, pos, out.len())?;
    let known = Rows {
        judging: false,
        ..judged
    };
    let _ = root(&known, &mut out[..pos], ty, first, n);
    keep(
        out,
        pos,
        source,
        place,
        (n + bitmap::SPARE_BITS) / bitmap::BYTE_BITS,
        tail,
    );
    Ok(pos + tail.length)
}

// The same by any table: its own refusals come first.
#[tactic(auto, unfolding(crate::specs::Entry::forward_outcome))]
pub fn forward(
    s: &[u8],
    ty: u32,
    sheet: &[u32],
    source: &[u8],
    tail_place: usize,
    tail_length: usize,
    out: &mut [u8],
) -> Result<usize, Refused>
    ensures { outcome (told result) out.new ≡ forward_outcome s.now ty sheet.now source.now tail_place tail_length out.old }
{
    let schema = Schema::check(s)?;
    let tail = Tail {
        place: tail_place,
        length: tail_length,
    };
    forward_sheet(&schema, ty, sheet, source, tail, out)
}
