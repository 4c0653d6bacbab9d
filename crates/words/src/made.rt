// What is said of files that were made.
#![tactic(auto, using(text::proofs::Texts::put_both), unfolding(text::specs::Codes::codes, crate::specs::Made::kept_text, crate::specs::Made::left_text, crate::specs::Made::indexed_text))]

ghost use Rattle.std.specs.Prelude.{◌+◌, ◌≤◌, length};
ghost use Rattle.text.specs.Text.{AddedTo};
ghost use Rattle.words.specs.Made.{count_text, kept_text, left_text, indexed_text};

use text::Page;

// A number of things, with the word for one or that for any other number.
#[tactic(auto, using(text::proofs::Texts::put_both), unfolding(crate::specs::Made::count_text))]
fn put_counted(page: &mut Page, n: u64, one: &[u8], many: &[u8])
    requires { (page.old.len ≤ 1000) × (length one.now ≤ 64) × (length many.now ≤ 64) }
    ensures added { AddedTo page.old page.new (count_text n one.now many.now) }
    ensures upper_bound { page.new.len ≤ page.old.len + 84 }
{
    page.put_decimal(n);
    page.put_word(if n == 1 { one } else { many });
}

// The entries and the bytes that a salvage has kept, and the spans that it has left out.
pub fn put_kept(page: &mut Page, entries: u64, bytes: u64, spans: u64)
    requires { page.old.len ≤ 64 }
    ensures added { AddedTo page.old page.new (kept_text entries bytes spans) }
    ensures upper_bound { page.new.len ≤ page.old.len + 512 }
{
    page.put_word(b"kept ");
    put_counted(page, entries, b" entry, ", b" entries, ");
    put_counted(page, bytes, b" byte; left out ", b" bytes; left out ");
    put_counted(page, spans, b" span\n", b" spans\n");
}

// A span that was left out.
pub fn put_left(page: &mut Page, place: u64, bytes: u64)
    requires { page.old.len ≤ 64 }
    ensures added { AddedTo page.old page.new (left_text place bytes) }
    ensures upper_bound { page.new.len ≤ page.old.len + 512 }
{
    page.put_word(b"left out ");
    put_counted(page, bytes, b" byte from place ", b" bytes from place ");
    page.put_decimal(place);
    page.put_word(b" on\n");
}

// The entries that an index covers, and its bytes.
pub fn put_indexed(page: &mut Page, entries: u64, bytes: u64)
    requires { page.old.len ≤ 64 }
    ensures added { AddedTo page.old page.new (indexed_text entries bytes) }
    ensures upper_bound { page.new.len ≤ page.old.len + 512 }
{
    page.put_word(b"indexed ");
    put_counted(page, entries, b" entry, ", b" entries, ");
    put_counted(page, bytes, b" byte\n", b" bytes\n");
}
