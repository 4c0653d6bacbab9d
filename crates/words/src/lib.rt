// The texts of the program's verbs but list and find, in a lent buffer; and a number in decimal, read.
#![tactic(auto, using(text::proofs::Texts::whole_text), unfolding(text::specs::Text::put_on))]

mod lines;
mod made;
pub mod number;
mod page;
mod verbs;

ghost use Rattle.std.specs.Prelude.{◌≡◌, ◌++◌, ◌≤◌, length, take, drop};
ghost use Rattle.words.specs.Words.{refusal, check_text, extends_text, explain_text};
ghost use Rattle.words.specs.Made.{kept_text, left_text, indexed_text};

use text::Page;

// Any of these texts has fewer bytes.
pub const MOST: usize = 8192;

// Puts the verdict on a schema file at the start of the buffer, which holds any, and answers its length. The rest of the buffer is as it was.
pub fn check(schema: &[u8], out: &mut [u8; MOST]) -> usize
    ensures value { result ≡ length (check_text schema.now) }
    ensures out_after { out.new ≡ check_text schema.now ++ drop result out.old }
    ensures upper_bound { (result ≤ length out.new) × (result ≡ length (take result out.new)) }
{
    let mut page = Page::on(out);
    verbs::put_check(&mut page, schema);
    page.len
}

// Puts whether a new schema file extends an old one at the start of the buffer, likewise.
pub fn extends(old: &[u8], new: &[u8], out: &mut [u8; MOST]) -> usize
    ensures value { result ≡ length (extends_text old.now new.now) }
    ensures out_after { out.new ≡ extends_text old.now new.now ++ drop result out.old }
    ensures upper_bound { (result ≤ length out.new) × (result ≡ length (take result out.new)) }
{
    let mut page = Page::on(out);
    verbs::put_extends(&mut page, old, new);
    page.len
}

// Puts what a number in decimal means, and what to do about it, at the start of the buffer, likewise.
pub fn explain(word: &[u8], out: &mut [u8; MOST]) -> usize
    ensures value { result ≡ length (explain_text word.now) }
    ensures out_after { out.new ≡ explain_text word.now ++ drop result out.old }
    ensures upper_bound { (result ≤ length out.new) × (result ≡ length (take result out.new)) }
{
    let mut page = Page::on(out);
    verbs::put_explain(&mut page, word);
    page.len
}

// Puts a refusal, its number and place and the number in words, at the start of the buffer, likewise.
pub fn refused(number: u32, place: usize, out: &mut [u8; MOST]) -> usize
    ensures value { result ≡ length (refusal number place) }
    ensures out_after { out.new ≡ refusal number place ++ drop result out.old }
    ensures upper_bound { (result ≤ length out.new) × (result ≡ length (take result out.new)) }
{
    let mut page = Page::on(out);
    lines::put_refusal(&mut page, number, place);
    page.len
}

// Puts how many entries and bytes a salvage has kept, and how many spans it has left out, at the start of the buffer, likewise.
pub fn kept(entries: usize, bytes: usize, spans: usize, out: &mut [u8; MOST]) -> usize
    ensures value { result ≡ length (kept_text entries bytes spans) }
    ensures out_after { out.new ≡ kept_text entries bytes spans ++ drop result out.old }
    ensures upper_bound { (result ≤ length out.new) × (result ≡ length (take result out.new)) }
{
    let mut page = Page::on(out);
    made::put_kept(&mut page, entries as u64, bytes as u64, spans as u64);
    page.len
}

// Puts which span a salvage has left out at the start of the buffer, likewise.
pub fn left_out(place: u32, bytes: u32, out: &mut [u8; MOST]) -> usize
    ensures value { result ≡ length (left_text place bytes) }
    ensures out_after { out.new ≡ left_text place bytes ++ drop result out.old }
    ensures upper_bound { (result ≤ length out.new) × (result ≡ length (take result out.new)) }
{
    let mut page = Page::on(out);
    made::put_left(&mut page, place as u64, bytes as u64);
    page.len
}

// Puts how many entries an index covers, and its length, at the start of the buffer, likewise.
pub fn indexed(entries: usize, bytes: usize, out: &mut [u8; MOST]) -> usize
    ensures value { result ≡ length (indexed_text entries bytes) }
    ensures out_after { out.new ≡ indexed_text entries bytes ++ drop result out.old }
    ensures upper_bound { (result ≤ length out.new) × (result ≡ length (take result out.new)) }
{
    let mut page = Page::on(out);
    made::put_indexed(&mut page, entries as u64, bytes as u64);
    page.len
}
