// The lines of a listing.
#![tactic(auto, using(text::proofs::Texts::put_both), unfolding(crate::specs::Text::line_start, crate::specs::Text::line_text, crate::specs::Text::stopped_text))]

ghost use Rattle.std.specs.Prelude.{◌≡◌, ◌+◌, ◌≤◌};
ghost use Rattle.receiver.specs.Told.{told};
ghost use Rattle.text.specs.Text.{AddedTo};
ghost use Rattle.listing.specs.Text.{heading, line_start, line_text, stopped_text};

use frame::Header;
use receiver::Received;
use text::Page;

// The first line.
pub fn put_heading(page: &mut Page)
    requires { page.old.len ≡ 0 }
    ensures added { AddedTo page.old page.new heading }
    ensures value { page.new.len ≡ 44 }
{
    page.put_word(b"frame side kind call answer place rows open\n");
}

// The first words of a line: entry, side, kind and correlation.
fn put_start(page: &mut Page, entry: u64, side: u8, h: Header)
    requires { page.old.len ≤ 500000 }
    ensures added { AddedTo page.old page.new (line_start entry side h) }
    ensures upper_bound { page.new.len ≤ page.old.len + 64 }
{
    page.put_decimal(entry);
    page.put_byte(b' ');
    page.put_byte(side);
    page.put_field(h.kind as u64);
    page.put_field(h.correlation);
}

// The line of an entry with this side, header and answer.
pub fn put_line(page: &mut Page, entry: u64, side: u8, h: Header, a: Received)
    requires { page.old.len ≤ 400000 }
    ensures added { AddedTo page.old page.new (line_text entry side h (told a)) }
    ensures upper_bound { page.new.len ≤ page.old.len + 149 }
{
    put_start(page, entry, side, h);
    page.put_field(a.number() as u64);
    page.put_field(a.place as u64);
    page.put_field(a.rows as u64);
    page.put_field(a.open as u64);
    page.put_byte(b'\n');
}

// The last line: the answer that stopped the listing, and the bytes left from that entry on.
pub fn put_stopped(page: &mut Page, number: u32, left: usize)
    requires { page.old.len ≤ 400000 }
    ensures added { AddedTo page.old page.new (stopped_text number left) }
    ensures upper_bound { page.new.len ≤ page.old.len + 55 }
{
    page.put_word(b"stopped");
    page.put_field(number as u64);
    page.put_word(b" left");
    page.put_field(left as u64);
    page.put_byte(b'\n');
}
