// Lists to Carve text: taking one token after another, and closing what is open.
#![tactic(auto)]

pub mod close;
pub mod depth;
pub mod pass;
pub mod step;
