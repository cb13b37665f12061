// A change of one row, planned on the table as it stands and then made.
ghost use Rattle.std.specs.Prelude.{◌≡◌, ◌≤◌, length};
ghost use Rattle.sums.specs.Changes.{adding, taking, counted, changed, count_after, rows_after};
ghost use Rattle.sums.specs.Laws.{Lawful};
ghost use Rattle.table.specs.Changing.{used};

use crate::amounts::Amounts;
use crate::rows::Row;
use keys::key::Key;
use table::lent::Table;
use table::steps;
use units::refusals::Refusal;

// Planned and then made, not a closure that makes it: a plan is looked at before anything is written.
#[derive(Clone, Copy, Debug, PartialEq, Eq)]
pub enum Change<K: Key> {
    Insert(usize, Row<K>),
    Replace(usize, Row<K>),
    Remove(usize),
}

// Rows that are only read come with their count: a `Table` of both asks for the loan of a `&mut` slice, and does not
// say whether a place is free.
//
// What adding comes to; `table` is the number that a refusal for want of a free place names.
#[tactic(auto, using(crate::proofs::Places::located_within, crate::proofs::Places::located_read))]
fn plan_adding<K: Key>(
    rows: &[Row<K>],
    count: usize,
    table: usize,
    more: Row<K>,
) -> Result<Change<K>, Refusal>
    ensures { result ≡ adding K.Key.digits K.Key.zero table rows.now count more }
{
    match steps::locate(rows, count, more.key) {
        Ok(place) => {
            let old = rows[place];
            let amounts = old.amounts.plus(more.amounts).ok_or(Refusal::RowUnsound)?;
            Ok(Change::Replace(place, Row { amounts, ..old }))
        }
        // A new row wants a free place; that is looked at before its amounts.
        Err(_) if count >= rows.len() => Err(Refusal::RowsFull(table)),
        Err(place) => {
            let amounts = Amounts::default()
                .plus(more.amounts)
                .ok_or(Refusal::RowUnsound)?;
            Ok(Change::Insert(place, Row { amounts, ..more }))
        }
    }
}

#[tactic(auto, using(crate::proofs::Places::located_within, crate::proofs::Places::located_read))]
fn plan_taking<K: Key>(rows: &[Row<K>], count: usize, less: Row<K>) -> Result<Change<K>, Refusal>
    ensures { result ≡ taking K.Key.digits K.Key.zero rows.now count less }
{
    let Ok(place) = steps::locate(rows, count, less.key) else {
        return Err(Refusal::RowUnsound);
    };
    let old = rows[place];
    let amounts = old.amounts.minus(less.amounts).ok_or(Refusal::RowUnsound)?;
    // A row without flights goes.
    if amounts.flights == 0 {
        Ok(Change::Remove(place))
    } else {
        Ok(Change::Replace(place, Row { amounts, ..old }))
    }
}

// Makes the change and answers how many rows there are then.
fn apply<K: Key>(rows: &mut [Row<K>], count: usize, change: Change<K>) -> usize
    requires { count ≤ length rows.old }
    ensures answer { result ≡ counted change rows.old count }
    ensures rows { rows.new ≡ changed K.Key.digits K.Key.zero change rows.old count }
{
    let mut table = Table::of(rows, count);
    match change {
        Change::Insert(place, row) => table.insert(place, row),
        Change::Replace(place, row) => table.replace(place, row),
        Change::Remove(place) => table.remove(place),
    };
    table.count()
}

// How many rows are looked at. The laws of adding are stated here, so that `add` is proved of its own code.
fn used_rows<K: Key>(rows: &[Row<K>], count: usize) -> usize
    ensures is { result ≡ used rows.now count }
    ensures lawful { Lawful K.Key.digits K.Key.zero rows.now (used rows.now count) }
{
    steps::used(rows, count)
}

// Adds amounts under a key: the new number of rows, or 25 with the table's number, or 26.
pub fn add<K: Key>(
    rows: &mut [Row<K>],
    count: usize,
    table: usize,
    more: Row<K>,
) -> Result<usize, Refusal>
    ensures answer { result ≡ count_after (adding K.Key.digits K.Key.zero table rows.old (used rows.old count) more) rows.old (used rows.old count) }
    ensures rows { rows.new ≡ rows_after K.Key.digits K.Key.zero (adding K.Key.digits K.Key.zero table rows.old (used rows.old count) more) rows.old (used rows.old count) }
    ensures lawful { Lawful K.Key.digits K.Key.zero rows.old (used rows.old count) }
{
    let count = used_rows(rows, count);
    let change = plan_adding(rows, count, table, more)?;
    Ok(apply(rows, count, change))
}

// Takes amounts back from under a key: the new number of rows, or 26.
pub fn take_back<K: Key>(rows: &mut [Row<K>], count: usize, less: Row<K>) -> Result<usize, Refusal>
    ensures answer { result ≡ count_after (taking K.Key.digits K.Key.zero rows.old (used rows.old count) less) rows.old (used rows.old count) }
    ensures rows { rows.new ≡ rows_after K.Key.digits K.Key.zero (taking K.Key.digits K.Key.zero rows.old (used rows.old count) less) rows.old (used rows.old count) }
{
    let count = used_rows(rows, count);
    let change = plan_taking(rows, count, less)?;
    Ok(apply(rows, count, change))
}
