// Tags to marks: the definition of the pass, and reading tags.
#![tactic(auto)]

pub mod kind;
pub mod tags;
