// The order of each kind of key.
use keys::key::Key;
use keys::kinds::{AerodromePair, AeroplaneType, Reference, StatePair};
use std::cmp::Ordering;
use units::codes::{AerodromeCode, Designator};

fn aerodromes(departure: &[u8; 4], arrival: &[u8; 4]) -> AerodromePair {
    AerodromePair {
        departure: AerodromeCode { bytes: *departure },
        arrival: AerodromeCode { bytes: *arrival },
    }
}

fn states(departure: u16, arrival: u16) -> StatePair {
    StatePair { departure, arrival }
}

fn named(bytes: &[u8; 4]) -> AeroplaneType {
    AeroplaneType {
        designator: Designator { bytes: *bytes },
    }
}

#[test]
fn departure_comes_first(rt: HostRuntime) {
    assert_eq!(rt; states(1, 193).compare(&states(2, 1)), Ordering::Less);
    assert_eq!(rt; states(2, 1).compare(&states(2, 1)), Ordering::Equal);
    assert_eq!(rt; states(2, 2).compare(&states(2, 1)), Ordering::Greater);
    let a = aerodromes(b"EDDF", b"ZZZZ");
    let b = aerodromes(b"EDDH", b"AAAA");
    assert_eq!(rt; a.compare(&b), Ordering::Less);
    assert_eq!(rt; b.compare(&b), Ordering::Equal);
    assert_eq!(rt; aerodromes(b"EDDH", b"AAAB").compare(&b), Ordering::Greater);
}

#[test]
fn references_and_types(rt: HostRuntime) {
    let last = Reference { number: u32::MAX };
    assert_eq!(rt; Reference { number: 9 }.compare(&last), Ordering::Less);
    assert_eq!(rt; last.compare(&last), Ordering::Equal);
    assert_eq!(rt; named(b"A3  ").compare(&named(b"A310")), Ordering::Less);
    assert_eq!(rt; named(b"B738").compare(&named(b"A388")), Ordering::Greater);
}
