// The slots of a call table, whatever form it has.
ghost use Rattle.std.specs.Prelude.{◌≡◌, ◌≤◌, ◌<◌, ℕ, Bool, true, ◌&&◌, List, length, set};
ghost use Rattle.calls.specs.declared.Call as call;
ghost use Rattle.calls.specs.Record.{is_call, is_free};
ghost use Rattle.calls.specs.Slots.{slot, record_at, first_slot, count_open, good_call, good_table};
ghost use Rattle.calls.specs.Forms.{table_one};
ghost use Rattle.calls.specs.OwnSlots.{own_slot_of};
ghost use Rattle.schema.specs.File.{table_of};
ghost use Rattle.schema.specs.Check.{IsGood};
ghost use Rattle.connection.specs.Slots.{good_count};
ghost use Rattle.connection.specs.Step.{fresh_table};

use crate::CallTable;
use crate::call_record::{EMPTY, is_call};
use crate::forms::{ROWS, TABLE_1};
use crate::good::{distinct, is_good_call};
use arrayvec::ArrayVec;
use calls::{Call, FormRow, OwnSlot};
use constants::limit;
use table::good::Schema;

// A call table: records by value, or cells that are lent. Its searches are written once.
pub trait Slots {
    // The records, one a slot.
    ghost slots: { Self → List call.Call };

    // Whether the numbers at a slot fit the table's form.
    ghost fits: { Self → ℕ → Bool };

    // How many slots there are.
    fn slot_count(&self) -> usize
        ensures { (result ≡ length (slots self.now)) × (result ≡ 128) };

    // The record at a slot.
    fn call(&self, i: usize) -> Call
        requires { i < 128 }
        ensures { result ≡ slot (slots self.now) i };

    // Whether it is that of an open call.
    fn is_open(&self, i: usize) -> bool
        requires { i < 128 }
        ensures { result ≡ (slot (slots self.now) i).«open» };

    // Whether it is that of the call open under this correlation.
    fn is_call(&self, i: usize, id: u64) -> bool
        requires { i < 128 }
        ensures { result ≡ is_call id (slot (slots self.now) i) };

    // Its correlation.
    fn correlation(&self, i: usize) -> u64
        requires { i < 128 }
        ensures { result ≡ (slot (slots self.now) i).correlation };

    // Whether the record at a slot fits the table's form, and is good by a schema table and that of the forms.
    fn is_good_at(&self, i: usize, schema: &Schema, forms: &[FormRow; ROWS]) -> bool
        requires { (i < 128) × (forms.now ≡ table_one) }
        ensures { result ≡ (fits self.now i && good_call (table_of schema.now.bytes.now) (slot (slots self.now) i)) };

    // The record at a slot, and an empty one past the last.
    final fn at(&self, i: usize) -> Call
        ensures { result ≡ slot (slots self.now) i }
    {
        if i < self.slot_count() {
            self.call(i)
        } else {
            EMPTY
        }
    }

    // The slot of the open call with this correlation.
    final fn find(&self, id: u64) -> Option<usize>
        ensures { result ≡ first_slot (is_call id) 0 (slots self.now) }
    {
        for i in 0..self.slot_count() {
            if self.is_call(i, id) {
                return Some(i);
            }
        }
        None
    }

    // The lowest free slot.
    final fn free_slot(&self) -> Option<usize>
        ensures { result ≡ first_slot is_free 0 (slots self.now) }
    {
        for i in 0..self.slot_count() {
            if !self.is_open(i) {
                return Some(i);
            }
        }
        None
    }

    // The record at a slot that was found.
    final fn own(&self, found: Option<usize>) -> Option<Call>
        ensures { result ≡ record_at (slots self.now) found }
    {
        match found {
            Some(i) => Some(self.at(i)),
            None => None,
        }
    }

    // The own call of a correlation: its record and its slot; where a call is to be opened, the lowest free slot.
    #[tactic(auto, unfolding(calls::specs::Slots::own_of))]
    final fn own_slot(&self, id: u64, opens: bool) -> OwnSlot
        ensures { result ≡ own_slot_of id opens (slots self.now) }
    {
        let found = self.find(id);
        OwnSlot {
            own: self.own(found),
            slot: if opens { self.free_slot() } else { found },
        }
    }

    // How many calls are open.
    final fn open_count(&self) -> usize
        ensures { (result ≡ count_open (slots self.now)) × (result ≤ 128) }
    {
        let mut n = 0;
        for i in 0..self.slot_count() {
            if self.is_open(i) {
                n += 1;
            }
        }
        n
    }

    // How many calls are open, where the table is good by a schema table. Their correlations are copied out once and compared there.
    final fn good_count(&self, schema: &Schema) -> Option<usize>
        ensures { result ≡ good_count (fits self.now) (table_of schema.now.bytes.now) (slots self.now) }
    {
        let forms = TABLE_1;
        let mut ids: ArrayVec<u64, { limit::CALLS }> = ArrayVec::new();
        for i in 0..self.slot_count() {
            if !self.is_good_at(i, schema, &forms) {
                return None;
            }
            if self.is_open(i) {
                ids.push(self.correlation(i));
            }
        }
        if distinct(&ids) {
            Some(ids.len())
        } else {
            None
        }
    }
}

impl Slots for CallTable {
    ghost slots = { λ table. table.slots };

    ghost fits = { λ table i. true };

    fn slot_count(&self) -> usize {
        limit::CALLS
    }

    fn call(&self, i: usize) -> Call {
        self.slots[i]
    }

    fn is_open(&self, i: usize) -> bool {
        self.slots[i].open
    }

    fn is_call(&self, i: usize, id: u64) -> bool {
        is_call(self.slots[i], id)
    }

    fn correlation(&self, i: usize) -> u64 {
        self.slots[i].correlation
    }

    fn is_good_at(&self, i: usize, schema: &Schema, forms: &[FormRow; ROWS]) -> bool {
        is_good_call(self.slots[i], schema, forms)
    }
}

impl CallTable {
    // All 128 slots free and zero.
    pub fn fresh() -> CallTable
        ensures { result ≡ fresh_table }
    {
        CallTable {
            slots: [EMPTY; limit::CALLS],
        }
    }

    // The table with another record at a slot; past the last nothing changes.
    pub fn with_slot(self, i: usize, call: Call) -> CallTable
        ensures { result.slots ≡ set self.slots i call }
    {
        if i < limit::CALLS {
            let mut next = self;
            next.slots[i] = call;
            next
        } else {
            self
        }
    }

    // Whether it is good by a good schema table.
    #[tactic(auto, using(crate::proofs::Scan::good_alone))]
    pub fn is_good(&self, s: &[u8]) -> bool
        requires { IsGood s.now }
        ensures { result ≡ good_table (table_of s.now) self.now.slots }
    {
        self.good_count(&Schema::of_good(s)).is_some()
    }
}
