// The words that every layer shares: codes, measures, amounts, entries and refusals.
#![tactic(auto)]

pub mod amounts;
pub mod codes;
pub mod entries;
pub mod marks;
pub mod measures;
pub mod refusals;
pub mod worked;
