// The sum tables of a ledger: by State pair, by aerodrome pair and by type.
#![tactic(auto)]

pub mod grouping;
pub mod kinds;
pub mod parts;
