// The text of a look-up.
#![tactic(auto, using(text::proofs::Texts::put_both), unfolding(crate::specs::Text::line_text, crate::specs::Text::stopped_text, crate::specs::Text::text_of))]

ghost use Rattle.std.specs.Prelude.{◌≡◌, ◌+◌, ◌*◌, ◌≤◌, ◌<◌, length, drop};
ghost use Rattle.buffer.specs.Store.{put};
ghost use Rattle.text.specs.Text.{AddedTo};
ghost use Rattle.index.specs.Row.{of_call};
ghost use Rattle.index.specs.IsIndex.{row_at, rows_in};
ghost use Rattle.index.specs.Told.{judged_number, judged_rows};
ghost use Rattle.index.specs.Text.{line_text, lines_text, stopped_text, text_of};

use crate::ROW;
use crate::judge::{ANSWER_AT, CORRELATION, PLACE_AT};
use constants::refusal;
use constants::refusal::Refusal;
use text::Page;
use wire::little::{number, u32_at};

// The line of the row at a place.
fn put_row(page: &mut Page, index: &[u8], at: usize)
    requires { (at + 16 ≤ length index.now) × (page.old.len ≤ 1000000000000) }
    ensures added { AddedTo page.old page.new (line_text (row_at (drop at index.now)).place (row_at (drop at index.now)).answer) }
    ensures upper_bound { page.new.len ≤ page.old.len + 42 }
{
    page.put_decimal(u32_at(index, at + PLACE_AT) as u64);
    page.put_field(u32_at(index, at + ANSWER_AT) as u64);
    page.put_byte(b'\n');
}

// The lines of one call among the first n rows.
fn put_rows(page: &mut Page, index: &[u8], n: usize, correlation: u64)
    requires { (16 * n ≤ length index.now) × (n < 4294967296) × (page.old.len ≤ 13) }
    ensures added { AddedTo page.old page.new (lines_text (of_call correlation (rows_in n index.now))) }
    ensures upper_bound { page.new.len ≤ 1000000000000 }
{
    for i in 0..n {
        let at = ROW * i;
        let same = number(index, at, CORRELATION) == correlation;
        if same {
            put_row(page, index, at);
        }
    }
}

// The last line.
fn put_stopped(page: &mut Page, number: u32)
    requires { page.old.len ≤ 1000000000000 }
    ensures { AddedTo page.old page.new (stopped_text number) }
{
    page.put_word(b"stopped");
    page.put_field(number as u64);
    page.put_byte(b'\n');
}

// The text, as far as the page has room.
#[tactic(auto, using(text::proofs::Texts::put_both), unfolding(crate::specs::Text::text_of, crate::specs::Text::lines_text, crate::specs::Row::of_call, crate::specs::IsIndex::rows_in))]
fn put_text(page: &mut Page, index: &[u8], judged: Result<usize, Refusal>, correlation: u64)
    requires { (16 * judged_rows judged ≤ length index.now) × (judged_rows judged < 4294967296) × (page.old.len ≡ 0) }
    ensures { AddedTo page.old page.new (text_of (of_call correlation (rows_in (judged_rows judged) index.now)) (judged_number judged)) }
{
    page.put_word(b"place answer\n");
    match judged {
        Ok(rows) => {
            put_rows(page, index, rows, correlation);
            put_stopped(page, refusal::ACCEPTED);
        }
        Err(refusal) => put_stopped(page, refusal.into()),
    }
}

// The text's length, measured on a page without room.
#[tactic(auto, unfolding(text::specs::Text::put_on))]
pub fn measure(index: &[u8], judged: Result<usize, Refusal>, correlation: u64) -> usize
    requires { (16 * judged_rows judged ≤ length index.now) × (judged_rows judged < 4294967296) }
    ensures { result ≡ length (text_of (of_call correlation (rows_in (judged_rows judged) index.now)) (judged_number judged)) }
{
    let mut none = [0u8; 1];
    let mut page = Page::on(&mut none[..0]);
    put_text(&mut page, index, judged, correlation);
    page.len
}

// The text at the start of the output.
#[tactic(auto, unfolding(text::specs::Text::put_on))]
pub fn print(index: &[u8], judged: Result<usize, Refusal>, correlation: u64, out: &mut [u8])
    requires { (16 * judged_rows judged ≤ length index.now) × (judged_rows judged < 4294967296) }
    ensures { out.new ≡ put out.old 0 (text_of (of_call correlation (rows_in (judged_rows judged) index.now)) (judged_number judged)) }
{
    let mut page = Page::on(out);
    put_text(&mut page, index, judged, correlation);
}
