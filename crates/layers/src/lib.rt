// Estimators in layers: equivalents and the generic equation, each over any estimator.
#![tactic(auto)]

pub mod category;
pub mod customs;
pub mod equivalents;
pub mod items;
pub mod layer;
