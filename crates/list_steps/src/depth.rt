// How many lists are open.
ghost use Rattle.std.specs.Prelude.{◌≡◌, ◌≤◌};
ghost use Rattle.text.specs.Bounds.{deep_most};
ghost use Rattle.list_steps.specs.Standing.{depth_by};

use list_blocks::tag::Tag;

// How many lists are open behind a tag.
pub fn depth_after(tag: Tag, depth: usize) -> usize
    requires { depth ≤ deep_most }
    ensures { result ≡ depth_by tag depth }
{
    match tag {
        Tag::Opener(_, _) => depth + 1,
        Tag::Closer => depth.saturating_sub(1),
        Tag::Item | Tag::Plain => depth,
    }
}
