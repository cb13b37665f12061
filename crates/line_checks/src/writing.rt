// What is written, what is refused, and what a refusal leaves.
use crate::order::{FIRST, named};
use lines::orders::Order;
use lines::reading::read_line;
use units::codes::Designator;
use units::entries::Entry;
use units::measures::{Kind, Measure};
use writer::writing::write_line;

fn written(order: Order, buffer: &mut [u8]) -> Result<usize, (u32, usize)> {
    named(write_line(order, buffer))
}

// An entry of the most bytes.
const LONGEST: Entry = Entry {
    reference: 999_999_999,
    measure: Measure {
        kind: Kind::Distance,
        amount: 20_020,
    },
    flights: 1_000,
    reported: Some(400_000_000),
    exempt: true,
    ..FIRST
};

#[test]
fn the_first_line_of_the_example(rt: HostRuntime) {
    let mut buffer = [b'.'; 33];
    assert_eq!(rt; written(Order::Add(FIRST), &mut buffer), Ok(31));
    assert!(rt; &buffer == b"ADD,7,GL7T,AAAA,BBBB,D,750,10,,..");
    assert_eq!(rt; written(Order::Amend(FIRST), &mut buffer), Ok(31));
    assert!(rt; &buffer == b"AMD,7,GL7T,AAAA,BBBB,D,750,10,,..");
}

#[test]
fn a_buffer_of_just_the_length(rt: HostRuntime) {
    let mut buffer = [b'.'; 53];
    assert_eq!(rt; written(Order::Add(LONGEST), &mut buffer), Ok(53));
    assert!(rt; &buffer == b"ADD,999999999,GL7T,AAAA,BBBB,D,20020,1000,400000000,X");
    let mut short = [b'.'; 52];
    assert_eq!(rt; written(Order::Add(LONGEST), &mut short), Err((34, 0)));
    assert!(rt; short == [b'.'; 52]);
}

#[test]
fn short_types_and_times(rt: HostRuntime) {
    let entry = Entry {
        designator: Designator { bytes: *b"A4  " },
        measure: Measure {
            kind: Kind::Time,
            amount: 0,
        },
        flights: 1,
        reported: Some(0),
        ..FIRST
    };
    let mut buffer = [b'.'; 28];
    assert_eq!(rt; written(Order::Amend(entry), &mut buffer), Ok(27));
    assert!(rt; &buffer == b"AMD,7,A4,AAAA,BBBB,T,0,1,0,.");
}

#[test]
fn strikes(rt: HostRuntime) {
    let mut buffer = [b'.'; 14];
    assert_eq!(rt; written(Order::Delete(999_999_999), &mut buffer), Ok(13));
    assert!(rt; &buffer == b"DEL,999999999.");
    assert_eq!(rt; written(Order::Delete(0), &mut buffer), Err((18, 2)));
    assert_eq!(rt;
        written(Order::Delete(1_000_000_000), &mut buffer),
        Err((18, 2))
    );
    assert!(rt; &buffer == b"DEL,999999999.");
    let mut short = [b'.'; 5];
    assert_eq!(rt; written(Order::Delete(10), &mut short), Err((34, 0)));
    assert!(rt; &short == b".....");
}

#[test]
fn a_range_is_looked_at_before_the_room(rt: HostRuntime) {
    let none = Entry {
        flights: 0,
        reported: Some(1),
        ..FIRST
    };
    let mut buffer = [b'.'; 2];
    assert_eq!(rt; written(Order::Add(none), &mut buffer), Err((18, 8)));
    assert!(rt; &buffer == b"..");
}

#[test]
fn ranges_of_an_entry(rt: HostRuntime) {
    assert_eq!(rt; named(FIRST.check()), Ok(()));
    let unnumbered = Entry {
        reference: 0,
        ..FIRST
    };
    assert_eq!(rt; named(unnumbered.check()), Err((18, 2)));
    let short = Entry {
        designator: Designator { bytes: *b"A   " },
        flights: 0,
        ..FIRST
    };
    assert_eq!(rt; named(short.check()), Err((18, 3)));
}

#[test]
fn ranges_of_the_measure(rt: HostRuntime) {
    let far = Entry {
        measure: Measure {
            kind: Kind::Distance,
            amount: 20_021,
        },
        ..FIRST
    };
    assert_eq!(rt; named(far.check()), Err((18, 7)));
    let long = Entry {
        measure: Measure {
            kind: Kind::Time,
            amount: 1_501,
        },
        ..FIRST
    };
    assert_eq!(rt; named(long.check()), Err((18, 7)));
}

#[test]
fn ranges_of_the_flights_and_their_fuel(rt: HostRuntime) {
    let many = Entry {
        flights: 1_001,
        ..FIRST
    };
    assert_eq!(rt; named(many.check()), Err((18, 8)));
    let most = Entry {
        reported: Some(4_000_000),
        ..FIRST
    };
    assert_eq!(rt; named(most.check()), Ok(()));
    let more = Entry {
        reported: Some(4_000_001),
        ..FIRST
    };
    assert_eq!(rt; named(more.check()), Err((18, 9)));
}

#[test]
fn what_is_written_reads_back(rt: HostRuntime) {
    let mut buffer = [0; 31];
    assert_eq!(rt; written(Order::Add(FIRST), &mut buffer), Ok(31));
    assert_eq!(rt; read_line(&buffer), Ok(Order::Add(FIRST)));
}
