// Flight lines written from orders, into a caller's buffer.
#![tactic(auto)]

mod drafts;
mod words;
pub mod writing;
