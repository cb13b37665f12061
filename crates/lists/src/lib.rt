// Short lists of fixed size, one piece of code for every kind of item.
#![tactic(auto)]

pub mod item;
pub mod short;
