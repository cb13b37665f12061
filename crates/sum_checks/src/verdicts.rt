// Classes, totals and the verdict at its boundaries.
use keys::kinds::StatePair;
use sums::amounts::Amounts;
use sums::rows::Row;
use totals::classes::class_of;
use totals::totals::{Totals, total};
use totals::verdicts::judge;

fn letter(year: u16, departure: u16, arrival: u16) -> char {
    class_of(year, &[1, 1, 0], StatePair { departure, arrival }).into()
}

// The verdict's number for international and subject CO2 in hundredths of a gram.
fn number(year: u16, international: u128, subject: u128) -> u32 {
    let totals = Totals {
        international,
        subject,
        domestic: 0,
    };
    judge(year, totals).into()
}

#[test]
fn classes(rt: HostRuntime) {
    assert_eq!(rt; (letter(2021, 1, 2), letter(2035, 2, 1)), ('S', 'S'));
    assert_eq!(rt; (letter(2020, 1, 2), letter(2019, 2, 1)), ('N', 'N'));
    assert_eq!(rt; (letter(2023, 1, 3), letter(2023, 3, 2)), ('N', 'N'));
    assert_eq!(rt; (letter(2023, 1, 4), letter(2023, 193, 1)), ('N', 'N'));
    assert_eq!(rt; (letter(2023, 1, 1), letter(2023, 3, 3)), ('D', 'D'));
}

#[test]
fn totals_by_class(rt: HostRuntime) {
    let row = Row {
        key: StatePair {
            departure: 1,
            arrival: 2,
        },
        amounts: Amounts {
            flights: 1,
            fuel: 1,
            co2: 316,
        },
    };
    let foreign = Row {
        key: StatePair {
            departure: 1,
            arrival: 3,
        },
        ..row
    };
    let domestic = Row {
        key: StatePair {
            departure: 1,
            arrival: 1,
        },
        ..row
    };
    let sums = total(2023, &[1, 1], &[domestic, row, foreign, row], 3);
    assert_eq!(rt;
        sums,
        Totals {
            international: 632,
            subject: 316,
            domestic: 316,
        }
    );
    let early = total(2020, &[1, 1], &[domestic, row, foreign, row], 9);
    assert_eq!(rt;
        early,
        Totals {
            international: 948,
            subject: 0,
            domestic: 316,
        }
    );
}

#[test]
fn at_most_10_000_tonnes(rt: HostRuntime) {
    assert_eq!(rt;
        (
            number(2019, 1_000_000_000_000, 0),
            number(2035, 1_000_000_000_000, 0),
        ),
        (1, 1)
    );
    assert_eq!(rt;
        (
            number(2019, 1_000_000_000_001, 0),
            number(2035, 1_000_000_000_001, 0),
        ),
        (2, 2)
    );
    assert_eq!(rt; number(2023, 0, 0), 1);
}

#[test]
fn from_500_000_tonnes_international_in_2019_and_2020(rt: HostRuntime) {
    assert_eq!(rt;
        (
            number(2019, 49_999_999_999_999, 0),
            number(2019, 50_000_000_000_000, 0),
        ),
        (2, 3)
    );
    assert_eq!(rt;
        (
            number(2020, 49_999_999_999_999, 0),
            number(2020, 50_000_000_000_000, 0),
        ),
        (2, 3)
    );
    assert_eq!(rt;
        (
            number(2021, 50_000_000_000_000, 0),
            number(2035, 50_000_000_000_000, 0),
        ),
        (2, 2)
    );
}

#[test]
fn from_50_000_tonnes_subject_from_2021_on(rt: HostRuntime) {
    assert_eq!(rt;
        (
            number(2021, 5_000_000_000_000, 4_999_999_999_999),
            number(2021, 5_000_000_000_000, 5_000_000_000_000),
        ),
        (2, 3)
    );
    assert_eq!(rt;
        (
            number(2035, 5_000_000_000_000, 4_999_999_999_999),
            number(2035, 5_000_000_000_000, 5_000_000_000_000),
        ),
        (2, 3)
    );
    assert_eq!(rt; number(2020, 5_000_000_000_000, 5_000_000_000_000), 2);
}
