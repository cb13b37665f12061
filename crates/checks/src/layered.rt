// Equivalents and custom types over the example book: boundaries, orders of checks, and what passes up.
use crate::example::{EXAMPLE, asked};
use book::checked::Book;
use layers::customs::CustomTypes;
use layers::equivalents::Equivalents;
use layers::items::{CustomType, Equivalent};
use units::codes::Designator;
use units::measures::Kind;
use units::refusals::{Fault, Refusal};

// What was answered; a refusal by its number.
fn number(answer: Result<(), Refusal>) -> Result<(), u32> {
    answer.map_err(|refusal| Fault::from(refusal).number)
}

fn equivalent(name: &[u8; 4], named: &[u8; 4], p: u32, q: u32) -> Equivalent {
    Equivalent {
        designator: Designator { bytes: *name },
        named: Designator { bytes: *named },
        p,
        q,
    }
}

fn custom(name: &[u8; 4], category: u32, mass: u32) -> CustomType {
    CustomType {
        designator: Designator { bytes: *name },
        category,
        mass,
    }
}

#[test]
fn equivalents_scale_the_named_type(rt: HostRuntime) {
    let mut layer = Equivalents::over(Book::of(&EXAMPLE));
    assert_eq!(rt;
        number(layer.add_type(equivalent(b"AT3 ", b"GL7T", 1, 3))),
        Ok(())
    );
    assert_eq!(rt;
        number(layer.add_type(equivalent(b"BIG ", b"GL7T", 10_000, 1))),
        Ok(())
    );
    assert_eq!(rt;
        number(layer.add_type(equivalent(b"AB  ", b"AT3 ", 1, 1))),
        Ok(())
    );
    assert_eq!(rt;
        number(layer.add_type(equivalent(b"GL7T", b"AT3 ", 2, 1))),
        Ok(())
    );
    assert_eq!(rt; asked(&layer, b"AT3 ", Kind::Distance, 750), Ok(667_333));
    assert_eq!(rt; asked(&layer, b"AT3 ", Kind::Distance, 10_001), Err(23));
    assert_eq!(rt; asked(&layer, b"AT3 ", Kind::Time, 60), Err(22));
    assert_eq!(rt; asked(&layer, b"BIG ", Kind::Distance, 0), Err(23));
    // no chains, and a type known below keeps its own answer
    assert_eq!(rt; asked(&layer, b"AB  ", Kind::Distance, 750), Err(22));
    assert_eq!(rt; asked(&layer, b"GL7T", Kind::Distance, 750), Ok(2_002_000));
}

#[test]
fn equivalents_are_checked_in_order(rt: HostRuntime) {
    let mut layer = Equivalents::over(Book::of(&EXAMPLE));
    assert_eq!(rt;
        number(layer.add_type(equivalent(b"at3 ", b"GL7T", 0, 0))),
        Err(9)
    );
    assert_eq!(rt;
        number(layer.add_type(equivalent(b"AT3 ", b"gl7t", 0, 0))),
        Err(9)
    );
    assert_eq!(rt;
        number(layer.add_type(equivalent(b"AT3 ", b"GL7T", 0, 1))),
        Err(11)
    );
    assert_eq!(rt;
        number(layer.add_type(equivalent(b"AT3 ", b"GL7T", 1, 10_001))),
        Err(11)
    );
    assert_eq!(rt;
        number(layer.add_type(equivalent(b"AT3 ", b"GL7T", 10_000, 1))),
        Ok(())
    );
    assert_eq!(rt;
        number(layer.add_type(equivalent(b"AT3 ", b"GL7T", 0, 0))),
        Err(10)
    );
    for i in 0..63u8 {
        let name = [b'B', b'A' + i / 10, b'0' + i % 10, b' '];
        assert_eq!(rt;
            number(layer.add_type(equivalent(&name, b"GL7T", 1, 1))),
            Ok(())
        );
    }
    assert_eq!(rt;
        number(layer.add_type(equivalent(b"ZZZZ", b"GL7T", 1, 1))),
        Err(8)
    );
    assert_eq!(rt;
        number(layer.add_type(equivalent(b"at3 ", b"GL7T", 0, 0))),
        Err(8)
    );
}

// Category, mass, and what the list answers.
const MASSES: [(u32, u32, Result<(), u32>); 18] = [
    (1, 135_999, Err(11)),
    (1, 136_000, Ok(())),
    (1, 640_000, Ok(())),
    (1, 640_001, Err(11)),
    (2, 59_999, Err(11)),
    (2, 60_000, Ok(())),
    (2, 135_999, Ok(())),
    (2, 136_000, Err(11)),
    (3, 5_700, Err(11)),
    (3, 5_701, Ok(())),
    (3, 59_999, Ok(())),
    (3, 60_000, Err(11)),
    (4, 5_700, Err(11)),
    (4, 5_701, Ok(())),
    (4, 640_000, Ok(())),
    (4, 640_001, Err(11)),
    (0, 6_000, Err(11)),
    (5, 6_000, Err(11)),
];

#[test]
fn masses_belong_to_their_category(rt: HostRuntime) {
    for (category, mass, expected) in MASSES {
        let mut layer = CustomTypes::over(Book::of(&EXAMPLE));
        assert_eq!(rt;
            number(layer.add_type(custom(b"C1  ", category, mass))),
            expected
        );
    }
}

// Category, mass, kind, amount, and the answer.
const EQUATION: [(u32, u32, Kind, u32, Result<u64, u32>); 11] = [
    (4, 20_000, Kind::Distance, 500, Ok(900_760)),
    (1, 640_000, Kind::Time, 60, Ok(0)),
    (1, 640_000, Kind::Time, 1_460, Err(23)),
    (1, 640_000, Kind::Time, 1_500, Err(23)),
    (2, 61_324, Kind::Time, 0, Ok(9)),
    (2, 61_325, Kind::Time, 0, Ok(0)),
    (2, 60_000, Kind::Time, 0, Ok(16_222)),
    (4, 640_000, Kind::Distance, 12_592, Err(23)),
    (4, 640_000, Kind::Time, 1_406, Err(23)),
    (3, 5_701, Kind::Distance, 0, Ok(267_203)),
    (1, 136_000, Kind::Distance, 0, Ok(368_925)),
];

#[test]
fn the_equation_is_exact(rt: HostRuntime) {
    for (category, mass, kind, amount, expected) in EQUATION {
        let mut layer = CustomTypes::over(Book::of(&EXAMPLE));
        assert_eq!(rt;
            number(layer.add_type(custom(b"C1  ", category, mass))),
            Ok(())
        );
        assert_eq!(rt; asked(&layer, b"C1  ", kind, amount), expected);
    }
}

#[test]
fn the_last_answered_amounts(rt: HostRuntime) {
    let mut layer = CustomTypes::over(Book::of(&EXAMPLE));
    assert_eq!(rt; number(layer.add_type(custom(b"C1  ", 1, 640_000))), Ok(()));
    assert_eq!(rt; number(layer.add_type(custom(b"C4  ", 4, 640_000))), Ok(()));
    assert!(rt; asked(&layer, b"C1  ", Kind::Time, 1_459).is_ok());
    assert!(rt; asked(&layer, b"C4  ", Kind::Distance, 12_591).is_ok());
    assert!(rt; asked(&layer, b"C4  ", Kind::Time, 1_405).is_ok());
}

#[test]
fn the_book_comes_before_the_equation(rt: HostRuntime) {
    let mut layer = CustomTypes::over(Equivalents::over(Book::of(&EXAMPLE)));
    assert_eq!(rt; number(layer.add_type(custom(b"GL7T", 4, 20_000))), Ok(()));
    assert_eq!(rt; asked(&layer, b"GL7T", Kind::Distance, 750), Ok(2_002_000));
    assert_eq!(rt; asked(&layer, b"GL7T", Kind::Distance, 10_001), Err(23));
    assert!(rt; asked(&layer, b"GL7T", Kind::Time, 60).is_ok());
    assert_eq!(rt; asked(&layer, b"C525", Kind::Time, 60), Err(22));
}
