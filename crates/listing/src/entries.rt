// The entries of a record, one after the other.
ghost use Rattle.std.specs.Prelude.{◌≡◌, ◌≤◌, length};
ghost use Rattle.text.specs.Text.{AddedTo};
ghost use Rattle.replay.specs.Run.{run_of};
ghost use Rattle.listing.specs.Listing.{run_text};

use crate::lines::{put_line, put_stopped};
use constants::{limit, refusal};
use replay::{header, step, stops};
use table::good::Schema;
use text::Page;

// The entries from the first on, and the last line. A `while`: the length of an entry is what was read of it.
fn put_from_first(schema: &Schema, entries: &[u8], sheet: &mut [u32], page: &mut Page)
    requires { (page.old.len ≤ 44) × (length entries.now ≤ 65536) × (length sheet.old ≡ 16384) }
    ensures added { AddedTo page.old page.new (run_text 1 (run_of schema.now.bytes.now entries.now)) }
    ensures upper_bound { page.new.len ≤ 362000 }
{
    let mut table = arf::fresh();
    let mut entry: u64 = 1;
    let mut at = 0;
    // A turn goes on by as many bytes as the frame used, and carries the call table on: there is no count to go by, and an iterator would hold all that.
    while at < entries.len() {
        let side = entries[at];
        let from = at + 1;
        let r = step(table, schema.bytes, side, &entries[from..], sheet);
        if stops(side, r.answer.number(), r.answer.used) {
            put_stopped(page, r.answer.number(), entries.len() - at);
            return;
        }
        let read = r.read;
        put_line(page, entry, side, header(read), r.answer);
        table = r.answer.table;
        entry += 1;
        at = from + r.answer.used;
    }
    put_stopped(page, refusal::ACCEPTED, 0);
}

// All entries of a record of at most 65,536 bytes, from the fresh call table, and the last line.
pub fn put_entries(schema: &Schema, entries: &[u8], page: &mut Page)
    requires { (page.old.len ≤ 44) × (length entries.now ≤ 65536) }
    ensures added { AddedTo page.old page.new (run_text 1 (run_of schema.now.bytes.now entries.now)) }
    ensures upper_bound { page.new.len ≤ 362000 }
{
    let mut sheet = [0u32; limit::SHEET];
    put_from_first(schema, entries, &mut sheet, page);
}
