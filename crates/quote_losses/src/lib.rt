// What is counted before a quote is written: how deep quotes stand in each other, and their losses.
#![tactic(auto)]

pub mod deep;
pub mod loss;
