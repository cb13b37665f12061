// The entry: the flights of one flight line, as the ledger takes them.
ghost use Rattle.std.specs.Prelude.{◌≡◌};
ghost use Rattle.units.specs.Entries.{reference_in_range, flights_in_range, reported_in_range, within, reference_checked, entry_checked};

use crate::codes::{AerodromeCode, Designator, is_aerodrome_code, is_designator};
use crate::measures::Measure;
use crate::refusals::{Refusal, hold};

// Its fields in the order of the flight line; well formed and in range or not.
#[derive(Clone, Copy, Debug, PartialEq, Eq)]
pub struct Entry {
    pub reference: u32,
    pub designator: Designator,
    pub departure: AerodromeCode,
    pub arrival: AerodromeCode,
    pub measure: Measure,
    pub flights: u32,
    // the fuel of all its flights, in whole kilograms
    pub reported: Option<u32>,
    pub exempt: bool,
}

fn is_reference(reference: u32) -> bool
    ensures { result ≡ reference_in_range reference }
{
    matches!(reference, 1..=999_999_999)
}

fn is_flights(flights: u32) -> bool
    ensures { result ≡ flights_in_range flights }
{
    matches!(flights, 1..=1_000)
}

fn is_reported(flights: u32, reported: Option<u32>) -> bool
    ensures { result ≡ reported_in_range flights reported }
{
    reported.is_none_or(|kilograms| kilograms as u64 <= 400_000 * flights as u64)
}

fn owed(good: bool, field: usize) -> Result<(), Refusal>
    ensures { result ≡ within good field }
{
    hold(good, Refusal::OutOfRange(field))
}

// Refusal 18 where the reference is out of range.
pub fn check_reference(reference: u32) -> Result<(), Refusal>
    ensures { result ≡ reference_checked reference }
{
    owed(is_reference(reference), 2)
}

impl Entry {
    // Refusal 18 with the first field that is out of range.
    pub fn check(self) -> Result<(), Refusal>
        ensures { result ≡ entry_checked self }
    {
        check_reference(self.reference)?;
        owed(is_designator(&self.designator.bytes), 3)?;
        owed(is_aerodrome_code(&self.departure.bytes), 4)?;
        owed(is_aerodrome_code(&self.arrival.bytes), 5)?;
        owed(self.measure.is_in_range(), 7)?;
        owed(is_flights(self.flights), 8)?;
        owed(is_reported(self.flights, self.reported), 9)
    }
}
