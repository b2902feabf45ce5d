// What the chain takes besides its passes: whether a pass leaves a text as it is, and moving numbers to the front.
#![tactic(auto)]

pub mod front;
pub mod plain;
