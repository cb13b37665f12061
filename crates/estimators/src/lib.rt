// Estimators of one flight's fuel.
#![tactic(auto)]

pub mod answers;
pub mod asking;
pub mod rows;
