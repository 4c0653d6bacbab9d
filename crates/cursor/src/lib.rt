// A reader that is lent to other code: it holds a payload and a position in it, and reads item by item.
#![tactic(auto)]

pub mod item;

ghost use Rattle.std.specs.Prelude.{◌≡◌, ◌-◌, length};
ghost use Rattle.cursor.specs.Item.{varuint_at, fixed_number_at, span_at, text_from};
ghost use Rattle.cursor.specs.Lent.{on, moved_to};
ghost use Rattle.cursor.specs.Told.{told_number, told_span};

use crate::item::{Content, Width};
use constants::refusal::{Refusal, Refused};

// The payload and the position in it. Beyond the payload's end nothing is left.
#[derive(Clone, Copy)]
pub struct Reader<'a> {
    pub payload: &'a [u8],
    pub at: usize,
}

// An item that is read moves the position past it, a refusal leaves it.
impl<'a> Reader<'a> {
    // A reader at a place of a payload.
    pub fn new(payload: &'a [u8], at: usize) -> Reader<'a>
        ensures { (result.payload ≡ payload.entry) × (result.at ≡ at) }
    {
        Reader { payload, at }
    }

    // How many bytes are left.
    pub fn left(self) -> usize
        ensures { result ≡ length self.entry.payload.now - self.entry.at }
    {
        item::left_from(self.payload, self.at)
    }

    // The next VarUInt.
    pub fn varuint(&mut self) -> Result<u64, Refused>
        ensures { (told_number result ≡ (on varuint_at self.old).item) × (self.new ≡ moved_to self.old (on varuint_at self.old).next) }
    {
        let past = item::varuint_at(self.payload, self.at)?;
        self.at = past.next;
        Ok(past.value)
    }

    // The next number of a width.
    pub fn number(&mut self, width: Width) -> Result<u64, Refused>
        ensures { (told_number result ≡ (on (fixed_number_at width) self.old).item) × (self.new ≡ moved_to self.old (on (fixed_number_at width) self.old).next) }
    {
        let past = item::number_at(self.payload, self.at, width)?;
        self.at = past.next;
        Ok(past.value)
    }

    // The next span: a length, and that many bytes.
    pub fn span(&mut self) -> Result<Content, Refused>
        ensures { (told_span result ≡ (on span_at self.old).item) × (self.new ≡ moved_to self.old (on span_at self.old).next) }
    {
        let content = item::span_at(self.payload, self.at)?;
        self.at = content.place + content.length;
        Ok(content)
    }
}

// The span at a place, by way of a reader. Its parameters are plain: whoever calls it holds no reader.
pub fn span_from(payload: &[u8], at: usize) -> Result<Content, Refused>
    ensures { told_span result ≡ (span_at payload.now at).item }
{
    Reader::new(payload, at).span()
}

// The string at a place: a span whose content is UTF-8.
pub fn text_from(payload: &[u8], at: usize) -> Result<Content, Refused>
    ensures { told_span result ≡ text_from payload.now at }
{
    let content = span_from(payload, at)?;
    if !utf8::valid(payload, content.place, content.place + content.length) {
        return Refusal::Utf8.at(content.place);
    }
    Ok(content)
}
