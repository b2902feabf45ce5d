// Attributions: parts, fields and texts, and what is read off them.
#![tactic(auto)]

pub mod facts;
pub mod reader;
pub mod scan;
