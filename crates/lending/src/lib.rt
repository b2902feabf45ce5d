// What every operation on a text begins with: the lent sizes, UTF-8, and the refusals 1 to 4.
#![tactic(auto)]

pub mod answer;
pub mod lent;
pub mod utf8;
