// An answer put back into the cells of the call table: the record at one slot changes.
ghost use Rattle.std.specs.Prelude.{◌≡◌, cond, ◌≤◌, set};
ghost use Rattle.calls.specs.Counting.{no_tally};
ghost use Rattle.calls.specs.Slots.{count_open};
ghost use Rattle.calls.specs.Told.{told, told_number, number_of_stop};
ghost use Rattle.reader.specs.Entry.{numbers};
ghost use Rattle.receiver.specs.Answer.{answer_in};
ghost use Rattle.receiver.specs.Told.{told_done};
ghost use Rattle.cells.specs.Records.{calls_of, CountsOpen};
ghost use Rattle.exports.specs.Answers.{kept_of, call_cells, RefusedCells};

use crate::Kept;
use crate::numbers::place;
use calls::{Allowed, Change, Stop, Tally};
use cells::records::{put_slot, slot_at};
use connection::numbers::number_in;
use connection::step::{answer_after, change_of};
use constants::limit;
use constants::refusal::Refusal;
use receiver::answer::used_of;
use receiver::payload::verdict_of;
use receiver::{Done, Halt};

fn one(b: bool) -> usize
    ensures { (result ≡ cond b 1 0) × (result ≤ 1) }
{
    usize::from(b)
}

// How many calls are open after a change, where n are before.
fn open_after(cells: &[u64], n: usize, change: Change) -> usize
    requires { CountsOpen cells.now n }
    ensures { result ≡ count_open (set (calls_of cells.now) change.slot change.call) }
{
    let i = change.slot;
    if i < limit::CALLS {
        let old = slot_at(cells, i);
        let new = change.call;
        return n + one(new.open) - one(old.open);
    }
    n
}

// The tally row after a plan is settled; that of one that ends before is the old one.
pub fn row_after(done: &Result<Done<Refusal>, Halt>, old: Tally) -> Tally
    ensures { result ≡ (told_done old done.now).row }
{
    match done {
        Ok(done) => done.row,
        Err(_) => old,
    }
}

// Where it is refused, in the payload or at which row of the schema table.
pub fn place_in(done: &Result<Done<Refusal>, Halt>) -> u64
    ensures { result ≡ (numbers (told_done no_tally done.now).reading).place }
{
    match done {
        Ok(done) => place(&done.reading),
        Err(Halt::More) => 0,
        Err(Halt::Refused(refused)) => refused.place as u64,
    }
}

// What a settled plan says to the call table: its judgement, what its payload gave, and the frame's size.
#[derive(Clone, Copy)]
struct Judgement {
    judged: Result<Allowed, Stop>,
    payload: Result<(), Stop>,
    size: usize,
}

fn said(done: &Result<Done<Refusal>, Halt>) -> Judgement
    ensures judged_as { told number_of_stop result.judged ≡ (told_done no_tally done.now).judged }
    ensures payload_as { told_number number_of_stop result.payload ≡ (numbers (told_done no_tally done.now).reading).number }
    ensures size_as { result.size ≡ (told_done no_tally done.now).size }
{
    match done {
        Ok(done) => Judgement {
            judged: done.judged.map_err(Stop::from),
            payload: verdict_of(&done.reading).map_err(Stop::from),
            size: done.size,
        },
        Err(halt) => {
            let stop = Stop::from(*halt);
            Judgement {
                judged: Err(stop),
                payload: Err(stop),
                size: 0,
            }
        }
    }
}

// What is told of the call table, in which so many calls are open, and its cells afterwards. Cells that are no call table were refused before, and stay.
pub fn keep(cells: &mut [u64], calls: usize, done: &Result<Done<Refusal>, Halt>) -> Kept
    requires { CountsOpen cells.old calls × RefusedCells cells.old (told_done no_tally done.now).judged }
    ensures value { result ≡ kept_of (answer_in (told_done no_tally done.now) (calls_of cells.old)) }
    ensures cells_after { cells.new ≡ call_cells cells.old (answer_in (told_done no_tally done.now) (calls_of cells.old)).table.slots }
{
    let said = said(done);
    let verdict = answer_after(said.judged, said.payload);
    let change = change_of(said.judged, said.payload);
    let open = open_after(cells, calls, change);
    put_slot(cells, change.slot, change.call);
    Kept {
        number: number_in(verdict),
        used: used_of(verdict, said.size),
        open,
    }
}
