// The three groupings of a ledger.
ghost use Rattle.groupings.specs.Groups.{by_states, by_aerodromes, by_type};

use crate::grouping::Grouping;
use keys::kinds::{AerodromePair, AeroplaneType, StatePair};
use units::worked::WorkedEntry;

#[derive(Clone, Copy, Debug)]
pub struct ByStates;

#[derive(Clone, Copy, Debug)]
pub struct ByAerodromes;

#[derive(Clone, Copy, Debug)]
pub struct ByType;

impl Grouping for ByStates {
    type Key = StatePair;

    ghost TABLE = { 1 };

    const TABLE: usize = 1;

    ghost grouped = { by_states };

    fn key(worked: &WorkedEntry) -> StatePair {
        StatePair {
            departure: worked.from,
            arrival: worked.to,
        }
    }
}

impl Grouping for ByAerodromes {
    type Key = AerodromePair;

    ghost TABLE = { 2 };

    const TABLE: usize = 2;

    ghost grouped = { by_aerodromes };

    fn key(worked: &WorkedEntry) -> AerodromePair {
        AerodromePair {
            departure: worked.entry.departure,
            arrival: worked.entry.arrival,
        }
    }
}

impl Grouping for ByType {
    type Key = AeroplaneType;

    ghost TABLE = { 3 };

    const TABLE: usize = 3;

    ghost grouped = { by_type };

    fn key(worked: &WorkedEntry) -> AeroplaneType {
        AeroplaneType {
            designator: worked.entry.designator,
        }
    }
}
