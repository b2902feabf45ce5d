// The lines of quotes: the table of the original text's quote tags, and the search for the line of a quote.
#![tactic(auto)]

pub mod search;
pub mod weights;
