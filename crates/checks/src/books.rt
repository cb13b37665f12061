// The check of a book: each check with its place, and which of two comes first.
use crate::example::{EXAMPLE, verdict, with_byte};
use book::checked::Book;
use book::format::Header;
use std::test::Fail;
use units::codes::{AerodromeCode, Designator};
use units::measures::Kind;

#[test]
fn the_example_is_taken(rt: HostRuntime) {
    let header = Header {
        year: 2023,
        distances: 17,
        times: 0,
        rows: 1,
        aerodromes: 2,
        states: 2,
    };
    assert_eq!(rt; verdict(&EXAMPLE), Ok(header));
}

// Byte, its new value, the number and the place of the refusal. The header has its year at 0 and its offsets
// from 12 on; columns begin at 36, the row at 70, aerodromes at 174, marks at 190.
const DAMAGES: [(usize, u8, u32, usize); 32] = [
    (0, 226, 2, 0),
    (0, 244, 2, 0),
    (2, 1, 2, 0),
    (2, 25, 2, 0),
    (4, 1, 2, 0),
    (7, 3, 2, 0),
    (9, 79, 2, 0),
    (10, 0, 2, 0),
    (10, 194, 2, 0),
    (12, 35, 3, 0),
    (16, 72, 3, 0),
    (24, 0, 3, 0),
    (35, 1, 3, 0),
    (36, 1, 4, 0),
    (43, 3, 4, 3),
    (69, 255, 4, 16),
    (70, 103, 5, 0),
    (71, 32, 5, 0),
    (74, 0, 5, 0),
    (74, 2, 5, 0),
    (75, 4, 5, 0),
    (76, 1, 5, 0),
    (76, 18, 5, 0),
    (76, 16, 5, 0),
    (77, 1, 5, 0),
    (79, 255, 5, 0),
    (145, 1, 5, 0),
    (174, 67, 6, 1),
    (178, 194, 6, 0),
    (180, 1, 6, 0),
    (189, 1, 6, 1),
    (191, 2, 7, 1),
];

#[test]
fn each_damage_is_named(rt: HostRuntime) {
    for (at, byte, number, place) in DAMAGES {
        assert_eq!(rt;
            verdict(&with_byte(at, byte)),
            Err((number, place)),
            "a damaged byte"
        );
    }
}

#[test]
fn a_length_out_of_range_is_named(rt: HostRuntime) {
    assert_eq!(rt; verdict(&[]), Err((1, 0)));
    assert_eq!(rt; verdict(&EXAMPLE[0..35]), Err((1, 0)));
    assert_eq!(rt; verdict(&EXAMPLE[0..191]), Err((3, 0)));
}

// Pairs of damages, an earlier and a later check, and what the earlier one says.
const PAIRS: [(usize, u8, usize, u8, u32, usize); 6] = [
    (0, 226, 12, 35, 2, 0),
    (12, 35, 36, 1, 3, 0),
    (36, 1, 70, 103, 4, 0),
    (70, 103, 178, 0, 5, 0),
    (178, 0, 190, 2, 6, 0),
    (190, 2, 191, 2, 7, 0),
];

#[test]
fn the_first_check_that_fails_is_named(rt: HostRuntime) {
    for (at, byte, later, other, number, place) in PAIRS {
        let mut bytes = with_byte(at, byte);
        if later < 192 {
            bytes[later] = other;
        }
        assert_eq!(rt; verdict(&bytes), Err((number, place)), "two damaged bytes");
    }
}

#[test]
fn readers_give_the_items(rt: HostRuntime) {
    let book = Book::of(&EXAMPLE);
    assert_eq!(rt;
        (
            book.column(Kind::Distance, 0),
            book.column(Kind::Distance, 16),
            book.column(Kind::Distance, 17),
        ),
        (0, 10000, 0)
    );
    assert_eq!(rt; book.column(Kind::Time, 0), 0);
    assert_eq!(rt;
        (
            book.fuel(0, 0),
            book.fuel(0, 16),
            book.fuel(0, 17),
            book.fuel(1, 0),
        ),
        (759, 17329, 0, 0)
    );
    assert_eq!(rt; (book.fuel_count(0), book.fuel_count(1)), (17, 0));
    assert_eq!(rt;
        (
            book.takes_part(0),
            book.takes_part(1),
            book.takes_part(2),
            book.takes_part(3),
        ),
        (false, true, true, false)
    );
}

#[test]
fn look_ups_find_what_is_there(rt: HostRuntime) {
    let book = Book::of(&EXAMPLE);
    let known = Designator { bytes: *b"GL7T" };
    assert_eq!(rt; book.find_row(known, Kind::Distance), Some(0));
    assert_eq!(rt; book.find_row(known, Kind::Time), None);
    assert_eq!(rt;
        book.find_row(Designator { bytes: *b"C525" }, Kind::Distance),
        None
    );
    assert_eq!(rt;
        book.find_aerodrome(AerodromeCode { bytes: *b"AAAA" }),
        Some(0)
    );
    assert_eq!(rt;
        book.find_aerodrome(AerodromeCode { bytes: *b"BBBB" }),
        Some(1)
    );
    assert_eq!(rt;
        book.find_aerodrome(AerodromeCode { bytes: *b"ABBB" }),
        None
    );
}

#[test]
fn rows_and_aerodromes_read_back(rt: HostRuntime) -> Result<(), Fail> {
    let book = Book::of(&EXAMPLE);
    let row = book.row(0).ok_or_else(|| Fail::new("no row"))?;
    assert_eq!(rt; row.designator.bytes, *b"GL7T");
    assert_eq!(rt; row.fuels, 17);
    assert!(rt; book.row(1).is_none());
    let aerodrome = book.aerodrome(1).ok_or_else(|| Fail::new("no aerodrome"))?;
    assert_eq!(rt; aerodrome.code.bytes, *b"BBBB");
    assert_eq!(rt; aerodrome.state, 2);
    assert!(rt; book.aerodrome(2).is_none());
    Ok(())
}

#[test]
fn refused_bytes_give_an_empty_book(rt: HostRuntime) {
    let book = Book::of(&EXAMPLE[0..191]);
    assert!(rt; book.row(0).is_none());
    assert_eq!(rt;
        book.find_row(Designator { bytes: *b"GL7T" }, Kind::Distance),
        None
    );
}
