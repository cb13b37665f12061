// The part that one entry has in each of the three tables.
use groupings::grouping::Grouping;
use groupings::kinds::{ByAerodromes, ByStates, ByType};
use groupings::parts::part;
use keys::kinds::{AerodromePair, AeroplaneType, StatePair};
use sums::amounts::Amounts;
use sums::rows::Row;
use units::codes::{AerodromeCode, Designator};
use units::entries::Entry;
use units::measures::{Kind, Measure};
use units::worked::{Marks, WorkedEntry};

fn worked(exempt: bool) -> WorkedEntry {
    WorkedEntry {
        entry: Entry {
            reference: 7,
            designator: Designator { bytes: *b"GL7T" },
            departure: AerodromeCode { bytes: *b"BBBB" },
            arrival: AerodromeCode { bytes: *b"AAAA" },
            measure: Measure {
                kind: Kind::Distance,
                amount: 750,
            },
            flights: 10,
            reported: None,
            exempt,
        },
        from: 2,
        to: 1,
        fuel: 20_020_000,
        co2: 6_326_320_000,
        marks: Marks {
            gap: true,
            far: false,
            unchecked: false,
        },
        under_query: false,
    }
}

#[test]
fn keys_run_from_departure_to_arrival(rt: HostRuntime) {
    let entry = worked(false);
    let amounts = Amounts {
        flights: 10,
        fuel: 20_020_000,
        co2: 6_326_320_000,
    };
    let states = StatePair {
        departure: 2,
        arrival: 1,
    };
    let aerodromes = AerodromePair {
        departure: AerodromeCode { bytes: *b"BBBB" },
        arrival: AerodromeCode { bytes: *b"AAAA" },
    };
    let by_type = AeroplaneType {
        designator: Designator { bytes: *b"GL7T" },
    };
    assert_eq!(rt;
        part::<ByStates>(&entry),
        Some(Row {
            key: states,
            amounts
        })
    );
    assert_eq!(rt;
        part::<ByAerodromes>(&entry),
        Some(Row {
            key: aerodromes,
            amounts
        })
    );
    assert_eq!(rt;
        part::<ByType>(&entry),
        Some(Row {
            key: by_type,
            amounts
        })
    );
}

#[test]
fn an_exempt_entry_is_in_no_table(rt: HostRuntime) {
    let entry = worked(true);
    assert_eq!(rt; part::<ByStates>(&entry), None);
    assert_eq!(rt; part::<ByAerodromes>(&entry), None);
    assert_eq!(rt; part::<ByType>(&entry), None);
}

#[test]
fn tables_have_numbers(rt: HostRuntime) {
    assert_eq!(rt;
        (ByStates::TABLE, ByAerodromes::TABLE, ByType::TABLE),
        (1, 2, 3)
    );
}
