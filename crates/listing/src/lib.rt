// The listing of a record of frames, as text in a lent buffer.
#![tactic(auto, using(text::proofs::Texts::whole_text), unfolding(text::specs::Text::put_on))]

mod entries;
mod lines;

ghost use Rattle.std.specs.Prelude.{◌≡◌, ◌++◌, ◌≤◌, length, take, drop};
ghost use Rattle.text.specs.Text.{AddedTo};
ghost use Rattle.listing.specs.Listing.{listing};

use constants::limit;
use constants::refusal::Refusal;
use table::good::Schema;
use text::Page;

// Any listing has fewer bytes: a line has at most 149, and its entry at least 27 of the record's 65,536.
pub const MOST: usize = 362000;

// The listing, as far as the buffer has room.
#[tactic(auto, using(text::proofs::Texts::put_both), unfolding(crate::specs::Listing::listing))]
fn put_all(schema: &[u8], entries: &[u8], page: &mut Page)
    requires { page.old.len ≡ 0 }
    ensures added { AddedTo page.old page.new (listing schema.now entries.now) }
    ensures upper_bound { page.new.len ≤ 362000 }
{
    lines::put_heading(page);
    if (limit::FILE < schema.len()) | (limit::FILE < entries.len()) {
        lines::put_stopped(page, Refusal::FileTooLong.into(), 0);
        return;
    }
    match Schema::check(schema) {
        Err(refused) => lines::put_stopped(page, refused.refusal.into(), entries.len()),
        Ok(schema) => entries::put_entries(&schema, entries, page),
    }
}

// Puts the listing of the entries at the start of the buffer, which holds any, and answers its length. The rest of the buffer is as it was.
pub fn list(schema: &[u8], entries: &[u8], out: &mut [u8; MOST]) -> usize
    ensures value { result ≡ length (listing schema.now entries.now) }
    ensures out_after { out.new ≡ listing schema.now entries.now ++ drop result out.old }
    ensures upper_bound { (result ≤ length out.new) × (result ≡ length (take result out.new)) }
{
    let mut page = Page::on(out);
    put_all(schema, entries, &mut page);
    page.len
}
