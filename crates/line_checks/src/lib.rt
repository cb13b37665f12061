// Tests of the reading and the writing of flight lines.
#![tactic(auto)]

#[cfg(test)]
mod order;
#[cfg(test)]
mod reading;
#[cfg(test)]
mod writing;
