// Entries worked out over the example book.
use crate::example::{EXAMPLE, told};
use book::checked::Book;
use layers::customs::CustomTypes;
use layers::items::CustomType;
use std::test::Fail;
use units::codes::{AerodromeCode, Designator};
use units::entries::Entry;
use units::measures::{Kind, Measure};
use units::worked::{Marks, WorkedEntry};
use working::work_out;

// GL7T at 750 km takes 2,002,000 g.
const FIRST: Entry = Entry {
    reference: 7,
    designator: Designator { bytes: *b"GL7T" },
    departure: AerodromeCode { bytes: *b"AAAA" },
    arrival: AerodromeCode { bytes: *b"BBBB" },
    measure: Measure {
        kind: Kind::Distance,
        amount: 750,
    },
    flights: 10,
    reported: None,
    exempt: false,
};

fn work(entry: Entry) -> Result<WorkedEntry, (u32, usize)> {
    let book = Book::of(&EXAMPLE);
    told(work_out(&book, &book, entry))
}

// Fuel, and the marks gap, far and unchecked.
fn worked(entry: Entry) -> Result<(u64, bool, bool, bool), (u32, usize)> {
    let worked = work(entry)?;
    let Marks {
        gap,
        far,
        unchecked,
    } = worked.marks;
    Ok((worked.fuel, gap, far, unchecked))
}

fn reporting(kilograms: u32) -> Entry {
    Entry {
        reported: Some(kilograms),
        ..FIRST
    }
}

#[test]
fn a_gap_takes_the_estimate_for_each_flight(rt: HostRuntime) -> Result<(), Fail> {
    let book = Book::of(&EXAMPLE);
    match work_out(&book, &book, FIRST) {
        Ok(worked) => {
            assert_eq!(rt; (worked.from, worked.to), (1, 2));
            assert_eq!(rt; (worked.fuel, worked.co2), (20_020_000, 6_326_320_000));
            assert!(rt;
                worked.marks.gap
                    && !worked.marks.far
                    && !worked.marks.unchecked
                    && !worked.under_query
            );
            Ok(())
        }
        Err(_) => Err(Fail::new("the entry is refused")),
    }
}

// Half of 20,020,000 g is 10,010 kg, the double 40,040 kg.
#[test]
fn far_is_under_half_or_over_double(rt: HostRuntime) {
    assert_eq!(rt;
        worked(reporting(10_010)),
        Ok((10_010_000, false, false, false))
    );
    assert_eq!(rt;
        worked(reporting(10_009)),
        Ok((10_009_000, false, true, false))
    );
    assert_eq!(rt;
        worked(reporting(40_040)),
        Ok((40_040_000, false, false, false))
    );
    assert_eq!(rt;
        worked(reporting(40_041)),
        Ok((40_041_000, false, true, false))
    );
}

#[test]
fn without_an_estimate_a_reported_fuel_is_unchecked(rt: HostRuntime) {
    let unknown = Entry {
        designator: Designator { bytes: *b"C525" },
        ..reporting(5)
    };
    assert_eq!(rt; worked(unknown), Ok((5_000, false, false, true)));
    let beyond = Entry {
        measure: Measure {
            kind: Kind::Distance,
            amount: 10_001,
        },
        ..reporting(5)
    };
    assert_eq!(rt; worked(beyond), Ok((5_000, false, false, true)));
    assert_eq!(rt;
        worked(Entry {
            exempt: true,
            ..reporting(40_041)
        }),
        Ok((40_041_000, false, true, false))
    );
}

#[test]
fn refusals_in_their_order(rt: HostRuntime) {
    let nowhere = AerodromeCode { bytes: *b"XXXX" };
    let unknown = Designator { bytes: *b"C525" };
    assert_eq!(rt;
        work(Entry {
            flights: 0,
            departure: nowhere,
            ..FIRST
        }),
        Err((18, 8))
    );
    assert_eq!(rt;
        work(Entry {
            departure: nowhere,
            arrival: nowhere,
            ..FIRST
        }),
        Err((20, 4))
    );
    assert_eq!(rt;
        work(Entry {
            arrival: nowhere,
            designator: unknown,
            ..FIRST
        }),
        Err((21, 5))
    );
}

#[test]
fn refusals_without_an_estimate(rt: HostRuntime) {
    let unknown = Designator { bytes: *b"C525" };
    assert_eq!(rt;
        work(Entry {
            designator: unknown,
            ..FIRST
        }),
        Err((22, 3))
    );
    let far = Measure {
        kind: Kind::Distance,
        amount: 10_001,
    };
    assert_eq!(rt;
        work(Entry {
            measure: far,
            ..FIRST
        }),
        Err((23, 7))
    );
}

// A heavy jet of 640,000 kg takes 0 g for 60 minutes by the generic equation.
#[test]
fn far_from_an_estimate_of_nothing(rt: HostRuntime) -> Result<(), Fail> {
    let book = Book::of(&EXAMPLE);
    let mut estimator = CustomTypes::over(book);
    let designator = Designator { bytes: *b"HEVY" };
    let listed = estimator.add_type(CustomType {
        designator,
        category: 1,
        mass: 640_000,
    });
    assert!(rt; listed.is_ok());
    let nothing = Entry {
        designator,
        measure: Measure {
            kind: Kind::Time,
            amount: 60,
        },
        ..reporting(0)
    };
    match (
        work_out(&estimator, &book, nothing),
        work_out(
            &estimator,
            &book,
            Entry {
                reported: Some(1),
                ..nothing
            },
        ),
    ) {
        (Ok(none), Ok(some)) => {
            assert!(rt; !none.marks.far && some.marks.far && some.fuel == 1_000);
            Ok(())
        },
        _ => Err(Fail::new("an entry is refused")),
    }
}
