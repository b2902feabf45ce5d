// Quote blocks: the definition of the pass, and what a quote becomes.
#![tactic(auto)]

pub mod block;
pub mod content;
