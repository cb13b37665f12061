// The kinds of keys: references, pairs of States, pairs of aerodromes and types.
ghost use Rattle.std.specs.Prelude.{◌≡◌, [], ◌∷◌, ◌++◌, length};
ghost use Rattle.keys.specs.Compared.{compared};
ghost use Rattle.keys.specs.Told.{reference_told, states_told, aerodromes_told, type_told};

use crate::key::Key;
use std::cmp::Ordering;
use units::codes::{AerodromeCode, Designator};

// The reference of an entry.
#[derive(Clone, Copy, Debug, PartialEq, Eq, PartialOrd, Ord)]
pub struct Reference {
    pub number: u32,
}

impl Key for Reference {
    ghost digits = { λ k. k.number ∷ [] };

    ghost sized = { λ _. Unit {0} };

    ghost told = { reference_told };

    ghost zero = { record { number = 0 } };

    fn blank() -> Reference {
        Reference { number: 0 }
    }

    #[tactic(auto, using(crate::proofs::Comparing::compared_one))]
    fn compare(&self, other: &Reference) -> Ordering {
        self.cmp(other)
    }
}

// The States of departure and arrival, by their numbers.
#[derive(Clone, Copy, Debug, PartialEq, Eq, PartialOrd, Ord)]
pub struct StatePair {
    pub departure: u16,
    pub arrival: u16,
}

impl Key for StatePair {
    ghost digits = { λ k. k.departure ∷ k.arrival ∷ [] };

    ghost sized = { λ _. Unit {0} };

    ghost told = { states_told };

    ghost zero = { record { departure = 0; arrival = 0 } };

    fn blank() -> StatePair {
        StatePair {
            departure: 0,
            arrival: 0,
        }
    }

    #[tactic(auto, using(crate::proofs::Comparing::compared_two))]
    fn compare(&self, other: &StatePair) -> Ordering {
        self.cmp(other)
    }
}

// The aerodromes of departure and arrival.
#[derive(Clone, Copy, Debug, PartialEq, Eq, PartialOrd, Ord)]
pub struct AerodromePair {
    pub departure: AerodromeCode,
    pub arrival: AerodromeCode,
}

impl Key for AerodromePair {
    ghost digits = { λ k. k.departure.bytes ++ k.arrival.bytes };

    ghost sized = { λ k. length k.departure.bytes ≡ 4 };

    ghost told = { aerodromes_told };

    ghost zero = { record { departure = record { bytes = 0 ∷ 0 ∷ 0 ∷ 0 ∷ [] }; arrival = record { bytes = 0 ∷ 0 ∷ 0 ∷ 0 ∷ [] } } };

    fn blank() -> AerodromePair {
        let bytes = [0, 0, 0, 0];
        AerodromePair {
            departure: AerodromeCode { bytes },
            arrival: AerodromeCode { bytes },
        }
    }

    fn compare(&self, other: &AerodromePair) -> Ordering {
        compare_by_value(*self, *other)
    }
}

// A proof knows the sizes of what is passed by value alone.
#[tactic(auto, using(crate::proofs::Comparing::compared_append))]
fn compare_by_value(a: AerodromePair, b: AerodromePair) -> Ordering
    ensures is { result ≡ compared (a.departure.bytes ++ a.arrival.bytes) (b.departure.bytes ++ b.arrival.bytes) }
    ensures sized { (length a.departure.bytes ≡ 4) × (length b.departure.bytes ≡ 4) }
{
    a.cmp(&b)
}

// An aeroplane type, by its designator.
#[derive(Clone, Copy, Debug, PartialEq, Eq, PartialOrd, Ord)]
pub struct AeroplaneType {
    pub designator: Designator,
}

impl Key for AeroplaneType {
    ghost digits = { λ k. k.designator.bytes };

    ghost sized = { λ _. Unit {0} };

    ghost told = { type_told };

    ghost zero = { record { designator = record { bytes = 0 ∷ 0 ∷ 0 ∷ 0 ∷ [] } } };

    fn blank() -> AeroplaneType {
        AeroplaneType {
            designator: Designator {
                bytes: [0, 0, 0, 0],
            },
        }
    }

    fn compare(&self, other: &AeroplaneType) -> Ordering {
        self.cmp(other)
    }
}
