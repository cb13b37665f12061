// Flight lines: cut at the commas, read field by field, refused by name.
#![tactic(auto)]

mod fields;
pub mod forms;
pub mod orders;
pub mod reading;
mod tokens;
