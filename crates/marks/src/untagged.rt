// A text without `[` has no tags, and the pass leaves it as it is.
ghost use Rattle.std.specs.Prelude.{◌≡◌, true};
ghost use Rattle.marks.specs.Untagged.{Untagged};

use text::PostAt;
use text::scan::next_byte;

// Whether there is no `[`.
pub fn is_untagged(text: &[u8]) -> bool
    ensures { result ≡ true → Untagged text.now }
{
    let next = next_byte(text, PostAt(0), b'[');
    text.len() <= next.0
}
