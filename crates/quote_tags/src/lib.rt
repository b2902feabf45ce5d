// Quote tags of a text: reading them, and masking what is no markup.
#![tactic(auto)]

pub mod mask;
pub mod tag;
