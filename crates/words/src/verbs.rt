// The text of each verb.
#![tactic(auto, using(text::proofs::Texts::put_both), unfolding(text::specs::Codes::codes))]

ghost use Rattle.std.specs.Prelude.{◌≡◌, ◌+◌, ◌≤◌};
ghost use Rattle.schema.specs.Check.{checked};
ghost use Rattle.text.specs.Text.{AddedTo};
ghost use Rattle.words.specs.Words.{refusal, which_of, check_text, extends_text, explain_text};

use crate::lines::{put_explained, put_refusal, put_refused};
use crate::number::number_of;
use constants::limit;
use constants::refusal::Refusal;
use table::checking::check;
use text::Page;

// A file that is too long.
fn put_too_long(page: &mut Page)
    requires { page.old.len ≤ 4 }
    ensures added { AddedTo page.old page.new (refusal 45 0) }
    ensures upper_bound { page.new.len ≤ page.old.len + 8100 }
{
    put_refusal(page, Refusal::FileTooLong as u32, 0);
}

// The verdict on a schema file.
#[tactic(auto, unfolding(text::specs::Codes::codes, crate::specs::Words::check_text))]
pub fn put_check(page: &mut Page, schema: &[u8])
    requires { page.old.len ≤ 4 }
    ensures added { AddedTo page.old page.new (check_text schema.now) }
    ensures upper_bound { page.new.len ≤ page.old.len + 8100 }
{
    if limit::FILE < schema.len() {
        put_too_long(page);
        return;
    }
    match check(schema) {
        Ok(()) => page.put_word(b"good\n"),
        Err(refused) => put_refused(page, refused),
    }
}

// The file that a refusal is about: the old one, or else the new one.
#[tactic(auto, unfolding(text::specs::Codes::codes, crate::specs::Words::which_of))]
fn put_which(page: &mut Page, old: &[u8])
    requires { page.old.len ≤ 4 }
    ensures added { AddedTo page.old page.new (which_of (checked old.now)) }
    ensures value { page.new.len ≡ page.old.len + 4 }
{
    match check(old) {
        Ok(()) => page.put_word(b"new "),
        Err(_) => page.put_word(b"old "),
    }
}

// Whether a new schema file extends an old one.
#[tactic(auto, using(text::proofs::Texts::put_both), unfolding(text::specs::Codes::codes, crate::specs::Words::extends_text))]
pub fn put_extends(page: &mut Page, old: &[u8], new: &[u8])
    requires { page.old.len ≡ 0 }
    ensures added { AddedTo page.old page.new (extends_text old.now new.now) }
    ensures upper_bound { page.new.len ≤ page.old.len + 8104 }
{
    if limit::FILE < old.len() {
        page.put_word(b"old ");
        put_too_long(page);
        return;
    }
    if limit::FILE < new.len() {
        page.put_word(b"new ");
        put_too_long(page);
        return;
    }
    match table::extension::extends(old, new) {
        Ok(true) => page.put_word(b"yes\n"),
        Ok(false) => page.put_word(b"no\n"),
        Err(refused) => {
            put_which(page, old);
            put_refused(page, refused);
        }
    }
}

// What a number in decimal means, and what to do about it.
#[tactic(auto, unfolding(text::specs::Codes::codes, crate::specs::Words::explain_text))]
pub fn put_explain(page: &mut Page, word: &[u8])
    requires { page.old.len ≤ 4 }
    ensures added { AddedTo page.old page.new (explain_text word.now) }
    ensures upper_bound { page.new.len ≤ page.old.len + 8000 }
{
    match number_of(word) {
        Some(n) => put_explained(page, n),
        None => page.put_word(b"no number\n"),
    }
}
