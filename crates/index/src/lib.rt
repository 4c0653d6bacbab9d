// The index of a record: a row for each entry that its listing prints, by correlation and then place; and the look-up of one call in an index.
#![tactic(auto)]

mod judge;
mod make;
mod order;
mod print;

ghost use Rattle.std.specs.Prelude.{◌≡◌, length};
ghost use Rattle.index.specs.Index.{outcome, make_index};
ghost use Rattle.index.specs.LookUp as look;
ghost use Rattle.index.specs.Told.{told, told_find};

use crate::judge::judge;
use crate::print::{measure, print};
use constants::limit;
use constants::refusal::{Refusal, Refused};
use table::good::Schema;

// Bytes of a row of an index; the trailer is as long.
pub const ROW: usize = 16;

// A row: the correlation and the place of an entry, and the number of the answer to it.
#[derive(Clone, Copy)]
pub struct Row {
    pub correlation: u64,
    pub place: u32,
    pub answer: u32,
}

// A text that was printed: the refusal of the index that follows `stopped` in it, if there is one, and the text's length.
#[derive(Clone, Copy, Debug, PartialEq, Eq)]
pub struct Printed {
    pub stopped: Option<Refusal>,
    pub length: usize,
}

// Makes the index of a record at the start of the output. A refusal (the table's, 45, 52) leaves the output as it was; past the index it stays in any case.
#[tactic(auto, unfolding(crate::specs::Index::make_index))]
pub fn make_index(schema: &[u8], entries: &[u8], out: &mut [u8]) -> Result<usize, Refused>
    ensures { outcome (told result) out.new ≡ make_index schema.now entries.now out.old }
{
    let schema = Schema::check(schema)?;
    if limit::FILE < entries.len() {
        return Refusal::FileTooLong.at(0);
    }
    make::make(&schema, entries, out)
}

// Prints the rows of one call at the start of the output, as text: the heading, a line a row, and `stopped` with 0 or the refusal's number (65, 66). Where the
// text does not fit (52) the output is as it was.
pub fn look_up(
    index: &[u8],
    entries: &[u8],
    correlation: u64,
    out: &mut [u8],
) -> Result<Printed, Refusal>
    ensures { look.outcome (told_find result) out.new ≡ look.look_up index.now entries.now correlation out.old }
{
    let judged = judge(index, entries.len());
    let length = measure(index, judged, correlation);
    if out.len() < length {
        return Err(Refusal::OutputTooShort);
    }
    print(index, judged, correlation, out);
    Ok(Printed {
        stopped: judged.err(),
        length,
    })
}
