// Worked examples, in a crate of their own so that no library is proved twice.
#![tactic(auto)]

#[cfg(test)]
mod any_item;
#[cfg(test)]
mod books;
#[cfg(test)]
mod directories;
#[cfg(test)]
mod estimates;
#[cfg(test)]
mod example;
#[cfg(test)]
mod layered;
#[cfg(test)]
mod words;
#[cfg(test)]
mod worked;
