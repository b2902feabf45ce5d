// Tags to marks: looking through a slot and writing it.
#![tactic(auto)]

pub mod look;
pub mod slot;
