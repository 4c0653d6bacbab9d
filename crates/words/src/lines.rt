// A number in words, and a refusal.
#![tactic(auto, using(text::proofs::Texts::put_both), unfolding(text::specs::Codes::codes))]

ghost use Rattle.std.specs.Prelude.{◌+◌, ◌≤◌};
ghost use Rattle.constants.specs.Number.{number_of};
ghost use Rattle.text.specs.Text.{AddedTo};
ghost use Rattle.words.specs.Words.{meaning_of, advice_of, unknown, explained, refusal};

use crate::page::{advices, meanings};
use constants::refusal::Refused;
use text::Page;

// What a number means.
#[tactic(auto, using(crate::proofs::Texts::meaning_line))]
fn put_meaning(page: &mut Page, number: u64)
    requires { page.old.len ≤ 500000 }
    ensures added { AddedTo page.old page.new (meaning_of number) }
    ensures upper_bound { page.new.len ≤ page.old.len + 2048 }
{
    page.put_line(meanings(), number);
}

// What to do about it.
#[tactic(auto, using(crate::proofs::Texts::advice_line))]
fn put_advice(page: &mut Page, number: u64)
    requires { page.old.len ≤ 500000 }
    ensures added { AddedTo page.old page.new (advice_of number) }
    ensures upper_bound { page.new.len ≤ page.old.len + 5800 }
{
    page.put_line(advices(), number);
}

// A number that means nothing.
#[tactic(auto, using(text::proofs::Texts::put_both), unfolding(text::specs::Codes::codes, crate::specs::Words::unknown))]
fn put_unknown(page: &mut Page, number: u64)
    requires { page.old.len ≤ 500000 }
    ensures added { AddedTo page.old page.new (unknown number) }
    ensures upper_bound { page.new.len ≤ page.old.len + 64 }
{
    page.put_decimal(number);
    page.put_word(b": no number of this format\n");
}

// A number in words, a line for its meaning and one for what to do about it.
pub fn put_explained(page: &mut Page, number: u64)
    requires { page.old.len ≤ 100000 }
    ensures added { AddedTo page.old page.new (explained number) }
    ensures upper_bound { page.new.len ≤ page.old.len + 8000 }
{
    let start = page.len;
    put_meaning(page, number);
    if page.len == start {
        put_unknown(page, number);
        return;
    }
    page.put_byte(b'\n');
    put_advice(page, number);
    page.put_byte(b'\n');
}

// A refusal: its number and place, and the number in words.
#[tactic(auto, using(text::proofs::Texts::put_both), unfolding(text::specs::Codes::codes, crate::specs::Words::refusal))]
pub fn put_refusal(page: &mut Page, number: u32, place: usize)
    requires { page.old.len ≤ 1000 }
    ensures added { AddedTo page.old page.new (refusal number place) }
    ensures upper_bound { page.new.len ≤ page.old.len + 8100 }
{
    page.put_word(b"refused");
    page.put_field(number as u64);
    page.put_word(b" place");
    page.put_field(place as u64);
    page.put_byte(b'\n');
    put_explained(page, number as u64);
}

// The same of a refusal as it is answered.
pub fn put_refused(page: &mut Page, refused: Refused)
    requires { page.old.len ≤ 1000 }
    ensures added { AddedTo page.old page.new (refusal (number_of refused.refusal) refused.place) }
    ensures upper_bound { page.new.len ≤ page.old.len + 8100 }
{
    put_refusal(page, refused.refusal.into(), refused.place);
}
