// The items of the estimators' short lists.
use units::codes::Designator;

// A type that takes the answer of another, times p / q.
#[derive(Clone, Copy, Debug, Default, PartialEq, Eq)]
pub struct Equivalent {
    pub designator: Designator,
    pub named: Designator,
    pub p: u32,
    pub q: u32,
}

// A custom type: its category is a number from 1 to 4, its average take-off mass is in kilograms.
#[derive(Clone, Copy, Debug, Default, PartialEq, Eq)]
pub struct CustomType {
    pub designator: Designator,
    // A number, since the list refuses one of no category after its other checks.
    pub category: u32,
    pub mass: u32,
}
