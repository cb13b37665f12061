// CO2 by class, from the exact rows.
ghost use Rattle.std.specs.Prelude.{◌≡◌, ◌^◌, ◌<◌, take};
ghost use Rattle.table.specs.Changing.{used};
ghost use Rattle.totals.specs.Totals.{totals_of, counted, Roomy};

use crate::classes::{Class, class_of};
use keys::kinds::StatePair;
use sums::rows::Row;
use table::steps;

// Hundredths of a gram; wide enough for whatever the rows hold.
#[derive(Clone, Copy, Debug, Default, PartialEq, Eq)]
pub struct Totals {
    // subject to offsetting or not
    pub international: u128,
    pub subject: u128,
    pub domestic: u128,
}

impl Totals {
    fn add(&mut self, class: Class, co2: u64)
        requires { Roomy self.old }
        ensures is { self.new ≡ counted self.old class co2 }
        ensures small { co2 < 2 ^ 64 }
    {
        let co2 = u128::from(co2);
        match class {
            Class::Domestic => self.domestic += co2,
            Class::International => self.international += co2,
            Class::Subject => {
                self.international += co2;
                self.subject += co2;
            }
        }
    }
}

// Of the first `count` rows. They come as a slice and a count, since a `Table` of both asks for the loan of a `&mut`
// slice.
pub fn total(year: u16, marks: &[u8], rows: &[Row<StatePair>], count: usize) -> Totals
    ensures { result ≡ totals_of year marks.now (take (used rows.now count) rows.now) }
{
    let mut totals = Totals::default();
    for row in &rows[..steps::used(rows, count)] {
        totals.add(class_of(year, marks, row.key), row.amounts.co2);
    }
    totals
}
