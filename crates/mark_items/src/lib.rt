// Tags to marks: the table of items, which marks are closed and which get a slot.
#![tactic(auto)]

pub mod items;
