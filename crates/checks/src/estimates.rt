// Estimates of the example's row: at columns, between them, past the last, and halves upward.
use crate::example::{EXAMPLE, asked};
use book::checked::Book;
use units::measures::Kind;

const ON_GL7T: [(u32, u64); 9] = [
    (0, 759_000),
    (1, 760_658),
    (500, 1_588_000),
    (750, 2_002_000),
    (6_000, 10_701_000),
    (6_250, 11_115_250),
    (7_000, 12_358_000),
    (9_999, 17_327_343),
    (10_000, 17_329_000),
];

#[test]
fn the_line_is_straight_between_columns(rt: HostRuntime) {
    let book = Book::of(&EXAMPLE);
    for (amount, grams) in ON_GL7T {
        assert_eq!(rt; asked(&book, b"GL7T", Kind::Distance, amount), Ok(grams));
    }
}

#[test]
fn past_the_last_fuel_is_beyond(rt: HostRuntime) {
    let book = Book::of(&EXAMPLE);
    assert_eq!(rt; asked(&book, b"GL7T", Kind::Distance, 10_001), Err(23));
    assert_eq!(rt; asked(&book, b"GL7T", Kind::Distance, 20_020), Err(23));
}

#[test]
fn another_type_or_kind_is_not_known(rt: HostRuntime) {
    let book = Book::of(&EXAMPLE);
    assert_eq!(rt; asked(&book, b"GL7T", Kind::Time, 60), Err(22));
    assert_eq!(rt; asked(&book, b"GL7 ", Kind::Distance, 60), Err(22));
    assert_eq!(rt; asked(&book, b"C525", Kind::Distance, 20_020), Err(22));
}

// With the second column at 16 km, 1 km gives 759,000 + 829,000 / 16 = 810,812.5 g.
#[test]
fn half_a_gram_goes_up(rt: HostRuntime) {
    let mut bytes = EXAMPLE;
    bytes[38] = 16;
    bytes[39] = 0;
    let book = Book::of(&bytes);
    assert_eq!(rt; asked(&book, b"GL7T", Kind::Distance, 1), Ok(810_813));
    assert_eq!(rt; asked(&book, b"GL7T", Kind::Distance, 2), Ok(862_625));
}
