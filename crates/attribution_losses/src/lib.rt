// Attributions: what is lost, and the joined texts.
#![tactic(auto)]

pub mod join;
pub mod loss;
pub mod put;
