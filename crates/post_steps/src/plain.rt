// Whether a pass leaves a text as it is.
ghost use Rattle.std.specs.Prelude.{◌≡◌, true};
ghost use Rattle.post_steps.specs.Plain.{Unquoted, Unlisted};

use quote_tags::mask::next_opener;
use quote_tags::tag::next_tag;
use text::PostAt;

// Whether no quote tag may begin anywhere.
pub fn no_quotes(s: &[u8]) -> bool
    ensures { result ≡ true → Unquoted s.now }
{
    s.len() <= next_tag(s, PostAt(0)).0
}

// Whether no list opener may begin anywhere: the other tags of lists stay text without one.
pub fn no_lists(s: &[u8]) -> bool
    ensures { result ≡ true → Unlisted s.now }
{
    s.len() <= next_opener(s, PostAt(0), b'l', 0).0
}
