// The call table in cells that the caller lends.
ghost use Rattle.std.specs.Prelude.{◌≡◌, cond, ◌&&◌, ◌*◌, ◌+◌, ◌≤◌, ◌<◌, ltb, get_or, length};
ghost use Rattle.std.proofs.lemmas.List.Edits.{sets};
ghost use Rattle.schema.specs.File.{table_of};
ghost use Rattle.schema.specs.Check.{IsGood};
ghost use Rattle.calls.specs.Forms.{table_one};
ghost use Rattle.calls.specs.Record.{is_call, is_free};
ghost use Rattle.calls.specs.Slots.{slot, good_call, good_table, first_slot};
ghost use Rattle.calls.specs.OwnSlots.{own_slot_of};
ghost use Rattle.cells.specs.Records.{call_of, calls_of, CountsOpen, record_cells, plain, are_calls};
ghost use Rattle.cells.specs.Kept.{kept, record_in, SameCalls};

use crate::put;
use calls::{Call, FormRow, OwnSlot};
use connection::forms::ROWS;
use connection::good::is_good_call;
use connection::slots::Slots;
use constants::limit;
use table::good::Schema;

// Cells of a record: the correlation, the method, and the marks with the counts of elements.
const RECORD_CELLS: usize = 3;

// The cells of a call table.
const CELLS: usize = RECORD_CELLS * limit::CALLS;

// The marks' cell: a bit for each of the five marks, of which the first says that the call is open, then the counts of input and of output elements.
const RESPONDED: u64 = 2;

const INPUT_CLOSED: u64 = 4;

const OUTPUT_CLOSED: u64 = 8;

const CANCELLED: u64 = 16;

const INPUTS: u64 = 32;

// Counts of elements, and what comes after the two of them.
const COUNTS: u64 = 65536;

const OUTPUTS: u64 = INPUTS * COUNTS;

const MARKS: u64 = OUTPUTS * COUNTS;

// 2^32: a method's number is below it.
const METHODS: u64 = 4294967296;

// The three numbers of a record as they stand in its cells.
#[derive(Clone, Copy)]
struct Record {
    correlation: u64,
    method: u64,
    marks: u64,
}

impl From<Record> for Call {
    ghost from_gives = { λ numbers call. call ≡ call_of numbers.correlation numbers.method numbers.marks };

    #[tactic(auto, unfolding(crate::specs::Records::call_of))]
    fn from(record: Record) -> Call {
        let marks = record.marks;
        Call {
            correlation: record.correlation,
            method: (record.method % METHODS) as u32,
            open: marks % 2 == 1,
            responded: marks / RESPONDED % 2 == 1,
            input_closed: marks / INPUT_CLOSED % 2 == 1,
            output_closed: marks / OUTPUT_CLOSED % 2 == 1,
            cancelled: marks / CANCELLED % 2 == 1,
            input_elements: (marks / INPUTS % COUNTS) as u16,
            output_elements: (marks / OUTPUTS % COUNTS) as u16,
        }
    }
}

impl From<Call> for Record {
    ghost from_gives = { λ call numbers. numbers ≡ kept call };

    fn from(call: Call) -> Record {
        Record {
            correlation: call.correlation,
            method: u64::from(call.method),
            marks: u64::from(call.open)
                + RESPONDED * u64::from(call.responded)
                + INPUT_CLOSED * u64::from(call.input_closed)
                + OUTPUT_CLOSED * u64::from(call.output_closed)
                + CANCELLED * u64::from(call.cancelled)
                + INPUTS * (call.input_elements as u64)
                + OUTPUTS * (call.output_elements as u64),
        }
    }
}

impl Record {
    // Whether the numbers are those of a record.
    fn is_plain(self) -> bool
        ensures { result ≡ plain self.method self.marks }
    {
        (self.method < METHODS) & (self.marks < MARKS)
    }

    // Whether the record is good by a good schema table. A free one, and one with no mark but open, need no look at the form.
    fn is_good(self, schema: &Schema, forms: &[FormRow; ROWS]) -> bool
        requires { forms.now ≡ table_one }
        ensures { result ≡ (plain self.method self.marks && good_call (table_of schema.now.bytes.now) (call_of self.correlation self.method self.marks)) }
    {
        if (self.correlation == 0) & ((self.method == 0) & (self.marks == 0)) {
            return true;
        }
        if self.marks == 1 {
            return self.method < schema.method_count() as u64;
        }
        self.is_plain() & is_good_call(self.into(), schema, forms)
    }
}

// A call table in cells; one past the last is 0.
#[derive(Clone, Copy)]
struct Cells<'a> {
    cells: &'a [u64],
}

impl<'a> Cells<'a> {
    fn cell(&self, i: usize) -> u64
        ensures { result ≡ get_or self.now.cells.now i 0 }
    {
        if i < self.cells.len() {
            self.cells[i]
        } else {
            0
        }
    }

    fn record(&self, i: usize) -> Record
        requires { i < 128 }
        ensures { result ≡ record_in self.now.cells.now i }
    {
        Record {
            correlation: self.cell(RECORD_CELLS * i),
            method: self.cell(RECORD_CELLS * i + 1),
            marks: self.cell(RECORD_CELLS * i + 2),
        }
    }

    // The table's cells alone, of as many or more: no loop over them needs a test of places. Whoever calls it has tested that there are as many, so each of the
    // two searches stands at its own call.
    fn front(cells: &'a [u64]) -> Cells<'a>
        requires { 384 ≤ length cells.now }
        ensures { SameCalls result.cells.now cells.now }
    {
        Cells {
            cells: &cells[..CELLS],
        }
    }
}

impl<'a> Slots for Cells<'a> {
    ghost slots = { λ table. calls_of table.cells.now };

    ghost fits = { λ table i. plain (get_or table.cells.now (3 * i + 1) 0) (get_or table.cells.now (3 * i + 2) 0) };

    #[tactic(auto, using(crate::proofs::Slots::long))]
    fn slot_count(&self) -> usize {
        limit::CALLS
    }

    #[tactic(auto, using(crate::proofs::Slots::slot_is))]
    fn call(&self, i: usize) -> Call {
        self.record(i).into()
    }

    #[tactic(auto, using(crate::proofs::Slots::open_at))]
    fn is_open(&self, i: usize) -> bool {
        self.cell(RECORD_CELLS * i + 2) % 2 == 1
    }

    fn is_call(&self, i: usize, id: u64) -> bool {
        self.is_open(i) & (self.correlation(i) == id)
    }

    #[tactic(auto, using(crate::proofs::Slots::correlation_at))]
    fn correlation(&self, i: usize) -> u64 {
        self.cell(RECORD_CELLS * i)
    }

    #[tactic(auto, using(crate::proofs::Slots::slot_is))]
    fn is_good_at(&self, i: usize, schema: &Schema, forms: &[FormRow; ROWS]) -> bool {
        self.record(i).is_good(schema, forms)
    }
}

// The record at a slot, and an empty one past the last.
pub fn slot_at(cells: &[u64], i: usize) -> Call
    ensures { result ≡ slot (calls_of cells.now) i }
{
    Cells { cells }.at(i)
}

// Whether the cells are a call table that is good by a good schema table; `calls` is how many are open.
pub fn are_good(cells: &[u64], s: &[u8], calls: &mut usize) -> bool
    requires { IsGood s.now }
    ensures value { result ≡ (are_calls cells.now && good_table (table_of s.now) (calls_of cells.now)) }
    ensures counts_open { CountsOpen cells.now calls.new }
{
    let schema = Schema::of_good(s);
    if cells.len() < CELLS {
        *calls = open_count(cells);
        return false;
    }
    match Cells::front(cells).good_count(&schema) {
        None => {
            *calls = open_count(cells);
            false
        }
        Some(n) => {
            *calls = n;
            true
        }
    }
}

// The slot of the open call with this correlation.
pub fn find(cells: &[u64], id: u64) -> Option<usize>
    ensures { result ≡ first_slot (is_call id) 0 (calls_of cells.now) }
{
    if CELLS <= cells.len() {
        Cells::front(cells).find(id)
    } else {
        Cells { cells }.find(id)
    }
}

// The lowest free slot.
pub fn free_slot(cells: &[u64]) -> Option<usize>
    ensures { result ≡ first_slot is_free 0 (calls_of cells.now) }
{
    if CELLS <= cells.len() {
        Cells::front(cells).free_slot()
    } else {
        Cells { cells }.free_slot()
    }
}

// The own call of a correlation: its record and its slot; where a call is to be opened, the lowest free slot.
pub fn own_slot(cells: &[u64], id: u64, opens: bool) -> OwnSlot
    ensures { result ≡ own_slot_of id opens (calls_of cells.now) }
{
    if CELLS <= cells.len() {
        Cells::front(cells).own_slot(id, opens)
    } else {
        Cells { cells }.own_slot(id, opens)
    }
}

// How many calls are open.
pub fn open_count(cells: &[u64]) -> usize
    ensures { CountsOpen cells.now result }
{
    if CELLS <= cells.len() {
        Cells::front(cells).open_count()
    } else {
        Cells { cells }.open_count()
    }
}

// A record put at a slot, in as many cells as there are; past the last slot nothing changes.
// No twin of `CallTable::with_slot`, which answers a table by value where this writes three numbers into lent memory.
pub fn put_slot(cells: &mut [u64], i: usize, call: Call)
    ensures { cells.new ≡ cond (ltb i 128) (sets cells.old (3 * i) (record_cells call)) cells.old }
{
    if i < limit::CALLS {
        let record = Record::from(call);
        put(cells, RECORD_CELLS * i, record.correlation);
        put(cells, RECORD_CELLS * i + 1, record.method);
        put(cells, RECORD_CELLS * i + 2, record.marks);
    }
}
