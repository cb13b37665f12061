// The order of the example's first line.
use units::codes::{AerodromeCode, Designator};
use units::entries::Entry;
use units::measures::{Kind, Measure};
use units::refusals::{Fault, Refusal};

// ADD,7,GL7T,AAAA,BBBB,D,750,10,,
pub(crate) const FIRST: Entry = Entry {
    reference: 7,
    designator: Designator { bytes: *b"GL7T" },
    departure: AerodromeCode { bytes: *b"AAAA" },
    arrival: AerodromeCode { bytes: *b"BBBB" },
    measure: Measure {
        kind: Kind::Distance,
        amount: 750,
    },
    flights: 10,
    reported: None,
    exempt: false,
};

// A refusal as its number and place. Alike in each crate of tests, which stand alone.
pub(crate) fn named<T>(answer: Result<T, Refusal>) -> Result<T, (u32, usize)> {
    answer.map_err(|refusal| {
        let fault = Fault::from(refusal);
        (fault.number, fault.place)
    })
}
