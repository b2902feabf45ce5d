// Lists to Carve text: reading list tags, items and blocks.
#![tactic(auto)]

pub mod block;
pub mod item;
pub mod tag;
