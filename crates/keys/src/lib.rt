// Keys of the ledger's tables and their order.
#![tactic(auto)]

pub mod key;
pub mod kinds;
