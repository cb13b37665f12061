// Worked examples of keys and tables, in a crate of their own so that no library is proved twice.
#![tactic(auto)]

#[cfg(test)]
mod kinds;
#[cfg(test)]
mod rows;
#[cfg(test)]
mod tables;
