// Tags to marks: writing a text piece, and a mark's delimiters around its body.
#![tactic(auto)]

pub mod class;
pub mod mark;
pub mod piece;
