// An ordered table over a caller's slice, one piece of code for every kind of record.
#![tactic(auto)]

pub mod lent;
pub mod record;
pub mod steps;
