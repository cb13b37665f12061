// What the rows of State pairs come to: classes, totals and the verdict.
#![tactic(auto)]

pub mod classes;
pub mod totals;
pub mod verdicts;
