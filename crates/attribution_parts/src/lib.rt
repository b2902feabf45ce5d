// Attributions: document 01's rule as definitions, with its worked facts. The kinds of field that a caption is made of.
#![tactic(auto)]

#[derive(Clone, Copy, PartialEq, Eq)]
pub enum Kind {
    Name,
    PostId,
    Id,
    Date,
    Time,
}
