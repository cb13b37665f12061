// Codes, measures, amounts and refusals.
use units::amounts::{co2, nearest};
use units::codes::{is_aerodrome_code, is_designator, is_state};
use units::measures::{Kind, Measure};
use units::refusals::{Fault, ListOwner, Refusal};

#[test]
fn designators_have_two_to_four_characters(rt: HostRuntime) {
    assert!(rt; is_designator(b"GL7T") && is_designator(b"A4  ") && is_designator(b"AT3 "));
    assert!(rt;
        !is_designator(b"A   ")
            && !is_designator(b"A B ")
            && !is_designator(b"AB C")
            && !is_designator(b"    ")
    );
    assert!(rt;
        !is_designator(b"ab12")
            && !is_designator(b"GL7")
            && !is_designator(b"GL7T ")
            && !is_designator(b"GL7\0")
    );
}

#[test]
fn aerodrome_codes_have_four_characters(rt: HostRuntime) {
    assert!(rt; is_aerodrome_code(b"AAAA") && is_aerodrome_code(b"Z09A"));
    assert!(rt;
        !is_aerodrome_code(b"AAA ")
            && !is_aerodrome_code(b"AAA")
            && !is_aerodrome_code(b"AAAAA")
            && !is_aerodrome_code(b"AA/A")
    );
}

#[test]
fn ranges_end_where_they_should(rt: HostRuntime) {
    assert!(rt; !is_state(0) && is_state(1) && is_state(193) && !is_state(194));
    let kind = Kind::Distance;
    assert!(rt;
        Measure {
            kind,
            amount: 20_020,
        }
        .is_in_range()
            && !Measure {
                kind,
                amount: 20_021,
            }
            .is_in_range()
    );
    let kind = Kind::Time;
    assert!(rt;
        Measure {
            kind,
            amount: 1_500,
        }
        .is_in_range()
            && !Measure {
                kind,
                amount: 1_501,
            }
            .is_in_range()
    );
}

#[test]
fn halves_go_up(rt: HostRuntime) {
    assert_eq!(rt; (nearest(1, 2), nearest(3, 2), nearest(5, 2)), (1, 2, 3));
    assert_eq!(rt;
        (
            nearest(1, 3),
            nearest(2, 3),
            nearest(49, 100),
            nearest(50, 100),
        ),
        (0, 1, 0, 1)
    );
    assert_eq!(rt;
        (nearest(7, 0), nearest(0, 7), nearest(u64::MAX, 1)),
        (0, 0, u64::MAX)
    );
}

#[test]
fn co2_is_316_times_the_fuel(rt: HostRuntime) {
    assert_eq!(rt; co2(2_002_000), 632_632_000);
}

// The letter, number and place of a refusal.
fn named(refusal: Refusal) -> (char, u32, usize) {
    let fault = Fault::from(refusal);
    (char::from(fault.layer), fault.number, fault.place)
}

#[test]
fn refusals_have_their_names(rt: HostRuntime) {
    assert_eq!(rt; named(Refusal::BookRow(7)), ('B', 5, 7));
    assert_eq!(rt;
        named(Refusal::ListFull(ListOwner::OfDirectory)),
        ('D', 8, 0)
    );
    assert_eq!(rt; named(Refusal::BeyondModel), ('E', 23, 7));
    assert_eq!(rt; named(Refusal::OutOfRange(3)), ('L', 18, 3));
    assert_eq!(rt; named(Refusal::OpenQuery), ('T', 33, 0));
}
