// Text with origins: what every pass reads and writes.
#![tactic(auto)]

ghost use Rattle.std.specs.Prelude.{◌≡◌, ◌+◌, ◌≤◌};
ghost use Rattle.text.specs.Bounds.{number_most};

pub mod area;
pub mod blank;
pub mod block;
pub mod bounds;
pub mod cell;
pub mod scan;
pub mod source;
pub mod trim;
pub mod write;
pub mod writer;

// A place in the post, or in the text that a pass reads.
#[derive(Clone, Copy)]
pub struct PostAt(pub usize);

// A place in the text that is written.
#[derive(Clone, Copy)]
pub struct TextAt(pub usize);

// A place in work memory: in work bytes, in work numbers, or in both.
#[derive(Clone, Copy)]
pub struct WorkAt(pub usize);

// Where a place of a text stands in work memory, which has the text from `base` on.
pub fn in_work(base: WorkAt, at: PostAt) -> WorkAt
    requires { base.0 + at.0 ≤ number_most }
    ensures { result.0 ≡ base.0 + at.0 }
{
    WorkAt(base.0 + at.0)
}
