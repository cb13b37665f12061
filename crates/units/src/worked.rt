// The worked-out entry: an entry with all that its rows need.
use crate::entries::Entry;

// Striking or settling it asks nobody: what went into its rows is kept here.
#[derive(Clone, Copy, Debug, PartialEq, Eq)]
pub struct WorkedEntry {
    pub entry: Entry,
    // the States of departure and arrival
    pub from: u16,
    pub to: u16,
    // grams, of all its flights
    pub fuel: u64,
    // hundredths of a gram
    pub co2: u64,
    pub marks: Marks,
    pub under_query: bool,
}

// Three flags: a worked-out entry that a caller holds may have any of them.
#[derive(Clone, Copy, Debug, Default, PartialEq, Eq)]
pub struct Marks {
    // its fuel is an estimate
    pub gap: bool,
    // its reported fuel is far from the estimate
    pub far: bool,
    // its reported fuel has no estimate to be held against
    pub unchecked: bool,
}
