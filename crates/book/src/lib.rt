// The data book: its format, the check of its bytes, and the readers of a checked book.
#![tactic(auto)]

mod bytes;
pub mod checked;
pub mod checks;
pub mod format;
pub mod reader;
