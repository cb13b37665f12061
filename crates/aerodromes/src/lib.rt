// Directories: the State of an aerodrome, from the book, from prefixes, and from custom aerodromes over any of them.
#![tactic(auto)]

pub mod custom;
pub mod custom_list;
pub mod directory;
pub mod listed;
pub mod prefix;
pub mod prefix_list;
