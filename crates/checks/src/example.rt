// The example book: 2023, 17 distance columns, row GL7T, aerodromes AAAA in State 1 and BBBB in State 2.
use book::checks::check_book;
use book::format::Header;
use estimators::asking::Estimator;
use units::codes::Designator;
use units::measures::{Kind, Measure};
use units::refusals::{Fault, Refusal};

pub(crate) const EXAMPLE: [u8; 192] = [
    231, 7, 17, 0, 0, 0, 1, 0, 2, 0, 2, 0, 36, 0, 0, 0, 70, 0, 0, 0, 70, 0, 0, 0, 174, 0, 0, 0,
    190, 0, 0, 0, 192, 0, 0, 0, 0, 0, 244, 1, 232, 3, 220, 5, 208, 7, 196, 9, 184, 11, 172, 13,
    160, 15, 148, 17, 136, 19, 124, 21, 112, 23, 88, 27, 64, 31, 40, 35, 16, 39, 71, 76, 55, 84, 1,
    1, 17, 0, 247, 2, 0, 0, 52, 6, 0, 0, 112, 9, 0, 0, 173, 12, 0, 0, 233, 15, 0, 0, 38, 19, 0, 0,
    98, 22, 0, 0, 159, 25, 0, 0, 219, 28, 0, 0, 24, 32, 0, 0, 84, 35, 0, 0, 145, 38, 0, 0, 205, 41,
    0, 0, 70, 48, 0, 0, 191, 54, 0, 0, 56, 61, 0, 0, 177, 67, 0, 0, 0, 0, 0, 0, 0, 0, 0, 0, 0, 0,
    0, 0, 0, 0, 0, 0, 0, 0, 0, 0, 0, 0, 0, 0, 0, 0, 0, 0, 65, 65, 65, 65, 1, 0, 0, 0, 66, 66, 66,
    66, 2, 0, 0, 0, 1, 1,
];

// What was answered; a refusal by its number and place. Alike in each crate of tests, which stand alone.
pub(crate) fn told<T: Drop>(answer: Result<T, Refusal>) -> Result<T, (u32, usize)> {
    answer.map_err(|refusal| {
        let fault = Fault::from(refusal);
        (fault.number, fault.place)
    })
}

// The fuel in grams, or the refusal's number.
pub(crate) fn asked<E: Estimator>(
    estimator: &E,
    name: &[u8; 4],
    kind: Kind,
    amount: u32,
) -> Result<u64, u32> {
    let designator = Designator { bytes: *name };
    estimator
        .ask(designator, Measure { kind, amount })
        .map_err(|none| Fault::from(Refusal::from(none)).number)
}

pub(crate) fn verdict(bytes: &[u8]) -> Result<Header, (u32, usize)> {
    told(check_book(bytes))
}

// The example with one byte changed.
pub(crate) fn with_byte(at: usize, byte: u8) -> [u8; 192] {
    let mut bytes = EXAMPLE;
    if at < 192 {
        bytes[at] = byte;
    }
    bytes
}
