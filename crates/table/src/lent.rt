// A table over a slice that its caller lends and gets back whole.
ghost use Rattle.std.specs.Prelude.{Ok, ◌≡◌, ℕ, ◌+◌, ◌-◌, ◌≤◌, true, length, replicate, if◌then◌else◌, slice_index_or};
ghost use Rattle.table.specs.Changing.{used, holds, has_room, read_at, after_insert, after_replace, after_remove};
ghost use Rattle.table.specs.Locating.{located};
ghost use Rattle.table.specs.Order.{Ordered, Finds, InsertsInOrder, ReplacesInOrder, RemovesInOrder, RemovesWhatWasPutIn};

use crate::record::Record;
use crate::steps;
use keys::key::Key;

// The most places of a table; the fewest is one.
pub const MOST_PLACES: usize = 32_768;

// The first `count` slots hold the records. The caller lends the slots, so their memory is fixed. The methods are thin
// over the steps, which stand by themselves for whoever may only read the slice.
#[derive(Drop)]
pub struct Table<'a, R: Record> {
    slots: &'a mut [R],
    count: usize,
    pub ghost within: { count ≤ length slots.now },
}

impl<'a, R: Record> Table<'a, R> {
    // The table of the first `count` records of a slice.
    pub fn of(slots: &'a mut [R], count: usize) -> Table<'a, R>
        ensures slots { result.slots.now ≡ slots.old }
        ensures lent { result.slots.ghost_name ≡ slots.entry.ghost_name }
        ensures count { result.count ≡ used slots.old count }
    {
        let count = steps::used(slots, count);
        Table { slots, count }
    }

    // How many records it has.
    pub fn count(&self) -> usize
        ensures { result ≡ self.now.count }
    {
        self.count
    }

    pub fn locate(&self, key: R::Key) -> Result<usize, usize>
        ensures is { result ≡ located (λ x. R.Key.Key.digits (R.keyed x)) R.unused self.now.slots.now self.now.count (R.Key.Key.digits key) }
        ensures finds { Finds (λ x. R.Key.Key.digits (R.keyed x)) R.unused self.now.slots.now self.now.count (R.Key.Key.digits key) result }
        ensures found { (i : ℕ) → result ≡ Ok i → R.keyed (slice_index_or self.now.slots.now i R.unused) ≡ key }
    {
        steps::locate(self.slots, self.count, key)
    }

    pub fn read(&self, place: usize) -> Option<R>
        ensures { result ≡ read_at R.unused self.now.slots.now self.now.count place }
    {
        steps::read(self.slots, self.count, place)
    }

    pub fn insert(&mut self, place: usize, row: R) -> bool
        ensures answer { result ≡ has_room self.old.slots.now self.old.count place }
        ensures slots { self.new.slots.now ≡ after_insert self.old.slots.now self.old.count place row }
        ensures count { self.new.count ≡ (if result then self.old.count + 1 else self.old.count) }
        ensures ordered { result ≡ true → InsertsInOrder (λ x. R.Key.Key.digits (R.keyed x)) R.unused self.old.slots.now self.old.count place row self.new.slots.now }
        ensures lent { self.new.slots.ghost_name ≡ self.old.slots.ghost_name }
    {
        let done = steps::insert(self.slots, self.count, place, row);
        if done {
            self.count += 1;
        }
        done
    }

    pub fn replace(&mut self, place: usize, row: R) -> bool
        ensures answer { result ≡ holds self.old.slots.now self.old.count place }
        ensures slots { self.new.slots.now ≡ after_replace self.old.slots.now self.old.count place row }
        ensures count { self.new.count ≡ self.old.count }
        ensures ordered { result ≡ true → ReplacesInOrder (λ x. R.Key.Key.digits (R.keyed x)) R.unused self.old.slots.now self.old.count place row self.new.slots.now }
        ensures lent { self.new.slots.ghost_name ≡ self.old.slots.ghost_name }
    {
        steps::replace(self.slots, self.count, place, row)
    }

    pub fn remove(&mut self, place: usize) -> bool
        ensures answer { result ≡ holds self.old.slots.now self.old.count place }
        ensures slots { self.new.slots.now ≡ after_remove R.unused self.old.slots.now self.old.count place }
        ensures count { self.new.count ≡ (if result then self.old.count - 1 else self.old.count) }
        ensures ordered { result ≡ true → RemovesInOrder (λ x. R.Key.Key.digits (R.keyed x)) R.unused self.old.slots.now self.old.count place self.new.slots.now }
        ensures undone { result ≡ true → RemovesWhatWasPutIn (λ x. R.Key.Key.digits (R.keyed x)) R.unused self.old.slots.now self.old.count place self.new.slots.now }
        ensures lent { self.new.slots.ghost_name ≡ self.old.slots.ghost_name }
    {
        let done = steps::remove(self.slots, self.count, place);
        if done {
            self.count -= 1;
        }
        done
    }

    pub fn clear(&mut self)
        ensures slots { self.new.slots.now ≡ replicate (length self.old.slots.now) R.unused }
        ensures count { self.new.count ≡ 0 }
        ensures ordered { Ordered (λ x. R.Key.Key.digits (R.keyed x)) R.unused self.new.slots.now 0 }
        ensures lent { self.new.slots.ghost_name ≡ self.old.slots.ghost_name }
    {
        steps::clear(self.slots);
        self.count = 0;
    }

    // The slice, given back whole.
    pub fn back(self) -> &'a mut [R]
        ensures slots { result.now ≡ self.entry.slots.now }
        ensures lent { result.ghost_name ≡ self.entry.slots.ghost_name }
    {
        self.slots
    }
}
