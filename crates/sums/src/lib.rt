// Rows of sums by key: what an entry adds to them and what is taken back.
#![tactic(auto)]

pub mod amounts;
pub mod changes;
pub mod rows;
