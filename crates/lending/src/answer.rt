// What the conversions that list losses answer.
ghost use Rattle.std.specs.Prelude.{◌≡◌};
ghost use Rattle.lending.specs.Answer.{losses_by};

use crate::lent::Refusal;

// The length of the text, the number of its losses (of its marks, where a report is on marks) and the length of the loss bytes.
#[derive(Clone, Copy, Debug, PartialEq, Eq)]
pub struct Converted {
    pub size: usize,
    pub losses: usize,
    pub bytes: usize,
}

// How many losses an answer comes with: none on a refusal.
pub fn losses_by(answer: Result<Converted, Refusal>) -> usize
    ensures { result ≡ losses_by answer }
{
    answer.map_or(0, |converted| converted.losses)
}
