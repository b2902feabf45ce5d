// The quote pass in work memory.
#![tactic(auto)]

pub mod close;
pub mod pass;
pub mod stack;
