// Steps over the slice of a table and the count of its records. Each works on any slice and any count, and those that
// change a table answer whether they did, as the library's sets do.
ghost use Rattle.std.specs.Prelude.{Ok, ◌≡◌, ℕ, ◌+◌, ◌-◌, ◌<◌, ◌≤◌, true, length, drop, replicate, slice_index_or, slice_set};
ghost use Rattle.table.specs.Changing.{used, holds, has_room, put_in, taken_out, read_at, after_insert, after_replace, after_remove};
ghost use Rattle.table.specs.Locating.{searched, located};
ghost use Rattle.table.specs.Order.{Ordered, Finds, InsertsInOrder, ReplacesInOrder, RemovesInOrder, RemovesWhatWasPutIn};

use crate::record::Record;
use keys::key::Key;
use std::cmp::Ordering;

// How many of the first `count` places there are.
pub fn used<R>(slots: &[R], count: usize) -> usize
    ensures { result ≡ used slots.now count }
{
    count.min(slots.len())
}

// Halves the places that may still hold the key, with one comparison each time.
// By hand, since the place is told of records out of order too, of which `binary_search_by` says nothing.
fn halve<R: Record>(records: &[R], key: R::Key) -> Result<usize, usize>
    ensures is { result ≡ searched (λ x. R.Key.Key.digits (R.keyed x)) R.unused records.now (R.Key.Key.digits key) }
    ensures found { (i : ℕ) → result ≡ Ok i → (i < length records.now) × (R.keyed (slice_index_or records.now i R.unused) ≡ key) }
{
    let (mut low, mut high) = (0, records.len());
    while low < high {
        let middle = low.midpoint(high);
        match records[middle].key().compare(&key) {
            Ordering::Less => low = middle + 1,
            Ordering::Equal => return Ok(middle),
            Ordering::Greater => high = middle,
        }
    }
    Err(low)
}

// Where a key stands among the first records, or where it belongs. Of 32,768 records it compares at most 16.
pub fn locate<R: Record>(slots: &[R], count: usize, key: R::Key) -> Result<usize, usize>
    ensures is { result ≡ located (λ x. R.Key.Key.digits (R.keyed x)) R.unused slots.now count (R.Key.Key.digits key) }
    ensures finds { Finds (λ x. R.Key.Key.digits (R.keyed x)) R.unused slots.now count (R.Key.Key.digits key) result }
    ensures found { (i : ℕ) → result ≡ Ok i → R.keyed (slice_index_or slots.now i R.unused) ≡ key }
{
    halve(&slots[..used(slots, count)], key)
}

// The record at a place, if one stands there.
pub fn read<R: Record>(slots: &[R], count: usize, place: usize) -> Option<R>
    ensures { result ≡ read_at R.unused slots.now count place }
{
    slots[..used(slots, count)].get(place).copied()
}

// Puts a record in at a place; refused where the table is full or the place lies past its records.
pub fn insert<R: Record>(slots: &mut [R], count: usize, place: usize, row: R) -> bool
    ensures answer { result ≡ has_room slots.old count place }
    ensures after { slots.new ≡ after_insert slots.old count place row }
    ensures ordered { result ≡ true → InsertsInOrder (λ x. R.Key.Key.digits (R.keyed x)) R.unused slots.old count place row slots.new }
{
    let room = place <= count && count < slots.len();
    if room {
        slots.copy_within(place..count, place + 1);
        slots[place] = row;
    }
    room
}

// Puts a record in the place of another; refused where none stands there.
pub fn replace<R: Record>(slots: &mut [R], count: usize, place: usize, row: R) -> bool
    ensures answer { result ≡ holds slots.old count place }
    ensures after { slots.new ≡ after_replace slots.old count place row }
    ensures ordered { result ≡ true → ReplacesInOrder (λ x. R.Key.Key.digits (R.keyed x)) R.unused slots.old count place row slots.new }
{
    let held = place < used(slots, count);
    if held {
        slots[place] = row;
    }
    held
}

// Takes a record out and leaves its place to the next; refused where none stands there.
pub fn remove<R: Record>(slots: &mut [R], count: usize, place: usize) -> bool
    ensures answer { result ≡ holds slots.old count place }
    ensures after { slots.new ≡ after_remove R.unused slots.old count place }
    ensures ordered { result ≡ true → RemovesInOrder (λ x. R.Key.Key.digits (R.keyed x)) R.unused slots.old count place slots.new }
    ensures undone { result ≡ true → RemovesWhatWasPutIn (λ x. R.Key.Key.digits (R.keyed x)) R.unused slots.old count place slots.new }
{
    let end = used(slots, count);
    let held = place < end;
    if held {
        slots.copy_within(place + 1..end, place);
        slots[end - 1] = R::blank();
    }
    held
}

// Writes a record at every place.
fn fill<R: Record>(slots: &mut [R], row: R)
    ensures after { slots.new ≡ replicate (length slots.old) row }
    ensures ordered { (x : R) → row ≡ x → Ordered (λ x. R.Key.Key.digits (R.keyed x)) x slots.new 0 }
{
    slots.fill_with(|| row);
}

// Blanks every place.
pub fn clear<R: Record>(slots: &mut [R])
    ensures after { slots.new ≡ replicate (length slots.old) R.unused }
    ensures ordered { Ordered (λ x. R.Key.Key.digits (R.keyed x)) R.unused slots.new 0 }
{
    fill(slots, R::blank());
}
