// Worked examples of sum tables and groupings, in a crate of their own so that no library is proved twice.
#![tactic(auto)]

#[cfg(test)]
mod groups;
#[cfg(test)]
mod rows;
#[cfg(test)]
mod verdicts;
