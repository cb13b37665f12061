// Directories: the book's list, prefixes, and custom aerodromes before the directory below.
use crate::example::EXAMPLE;
use aerodromes::custom::CustomAerodrome;
use aerodromes::custom_list::CustomAerodromes;
use aerodromes::directory::Directory;
use aerodromes::prefix::Prefix;
use aerodromes::prefix_list::Prefixes;
use book::checked::Book;
use units::codes::AerodromeCode;
use units::refusals::{Fault, Refusal};

fn state<D: Directory>(directory: &D, code: &[u8; 4]) -> Option<u16> {
    directory.state_of(AerodromeCode { bytes: *code })
}

// What was answered; a refusal by its letter and number.
pub(crate) fn named(answer: Result<(), Refusal>) -> Result<(), (char, u32)> {
    answer.map_err(|refusal| {
        let fault = Fault::from(refusal);
        (char::from(fault.layer), fault.number)
    })
}

fn custom(code: &[u8; 4], state: u16) -> CustomAerodrome {
    CustomAerodrome {
        code: AerodromeCode { bytes: *code },
        state,
    }
}

#[test]
fn custom_aerodromes_come_before_the_book(rt: HostRuntime) {
    let mut directory = CustomAerodromes::new(Book::of(&EXAMPLE));
    assert_eq!(rt;
        (
            state(&directory, b"AAAA"),
            state(&directory, b"BBBB"),
            state(&directory, b"CCCC"),
        ),
        (Some(1), Some(2), None)
    );
    assert_eq!(rt; named(directory.add(custom(b"BBBB", 193))), Ok(()));
    assert_eq!(rt; named(directory.add(custom(b"CCCC", 7))), Ok(()));
    assert_eq!(rt;
        (
            state(&directory, b"AAAA"),
            state(&directory, b"BBBB"),
            state(&directory, b"CCCC"),
        ),
        (Some(1), Some(193), Some(7))
    );
}

#[test]
fn custom_aerodromes_are_checked_in_order(rt: HostRuntime) {
    let mut directory = CustomAerodromes::new(Book::of(&EXAMPLE));
    assert_eq!(rt; named(directory.add(custom(b"ccCC", 0))), Err(('D', 9)));
    assert_eq!(rt; named(directory.add(custom(b"CCCC", 0))), Err(('D', 11)));
    assert_eq!(rt; named(directory.add(custom(b"CCCC", 194))), Err(('D', 11)));
    assert_eq!(rt; named(directory.add(custom(b"CCCC", 1))), Ok(()));
    assert_eq!(rt; named(directory.add(custom(b"CCCC", 0))), Err(('D', 10)));
    for i in 0..63u8 {
        let code = [b'X', b'A' + i / 10, b'0' + i % 10, b'X'];
        assert_eq!(rt; named(directory.add(custom(&code, 1))), Ok(()));
    }
    assert_eq!(rt; named(directory.add(custom(b"cccc", 0))), Err(('D', 8)));
}

fn prefix(of: &[u8; 2], state: u16) -> Prefix {
    let [first, second] = *of;
    Prefix {
        first,
        second,
        state,
    }
}

#[test]
fn prefixes_are_the_first_two_characters(rt: HostRuntime) {
    let mut prefixes = Prefixes::new();
    assert_eq!(rt; named(prefixes.add(prefix(b"EG", 9))), Ok(()));
    assert_eq!(rt; named(prefixes.add(prefix(b"EG", 8))), Err(('D', 10)));
    assert_eq!(rt; named(prefixes.add(prefix(b"eG", 8))), Err(('D', 9)));
    assert_eq!(rt; named(prefixes.add(prefix(b"E ", 8))), Err(('D', 9)));
    assert_eq!(rt; named(prefixes.add(prefix(b"EH", 0))), Err(('D', 11)));
    assert_eq!(rt;
        (
            state(&prefixes, b"EGLL"),
            state(&prefixes, b"GEGE"),
            state(&prefixes, b"LLEG"),
        ),
        (Some(9), None, None)
    );
}

#[test]
fn the_prefix_list_has_256_places(rt: HostRuntime) {
    let mut prefixes = Prefixes::new();
    for i in 0..=255u8 {
        let item = Prefix {
            first: b'A' + i / 16,
            second: b'A' + i % 16,
            state: 1,
        };
        assert_eq!(rt; named(prefixes.add(item)), Ok(()));
    }
    assert_eq!(rt; named(prefixes.add(prefix(b"00", 1))), Err(('D', 8)));
    assert_eq!(rt; state(&prefixes, b"PPAA"), Some(1));
}
