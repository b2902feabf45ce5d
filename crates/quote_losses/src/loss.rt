// The losses of a text's quotes in the order of their openers, each with its line in the original text. They are listed in lent slices; what
// does not fit is counted, so refusals 7 and 8 are decided by the counts. The numbers of their records stand before a place `base` of the work
// numbers, and the tags of the original text from there on.
ghost use Rattle.std.specs.Prelude.{◌≡◌, ◌+◌, ◌≤◌, ◌<◌, length, take, drop};
ghost use Rattle.text.specs.Bounds.{out_most, deep_most};
ghost use Rattle.quote_tags.specs.Tags.{NextBracket};
ghost use Rattle.quote_lines.specs.Lines.{tags};
ghost use Rattle.quote_lines.specs.Tables.{Table};
ghost use Rattle.quote_blocks.specs.Quotes.{DepthBehind, TooDeep};
ghost use Rattle.quote_losses.specs.Losses.{ListsToken, FewAt, ListsLosses};

use crate::deep::{open_less, open_more};
use attribution_losses::loss::{Counts, put_losses};
use quote_lines::search::{Tags, attribution_size};
use quote_tags::tag::{Kind, next_tag, tag_at};
use text::PostAt;
use text::bounds::DEEP_MOST;
use text::scan::next_bracket;

// A place in the text and the place of the next `]`; how many quotes are open there, one more than may be where that was ever so; the number of the
// next quote, the tag that its search begins at, and the losses and loss bytes before the place.
#[derive(Clone, Copy)]
pub struct Listing {
    pub at: PostAt,
    pub bracket: PostAt,
    pub open: usize,
    pub quote: usize,
    pub next: usize,
    pub counts: Counts,
}

// Lists the losses of the token at a place, a text with all up to the next place where a quote tag may begin; `post` is the masked original text.
fn list_token(
    source: &[u8],
    post: &[u8],
    numbers: &mut [u32],
    base: usize,
    count: usize,
    from: Listing,
    loss_bytes: &mut [u8],
) -> Listing
    requires { ((from.at.0 < length source.now) × (length source.now ≤ out_most)) × (((NextBracket source.now from.at.0 from.bracket.0 × (from.«open» ≤ deep_most + 1)) × FewAt from.at.0 from.quote from.counts.losses from.counts.bytes) × (Table post.now (drop base numbers.old) 0 count × (base ≤ length numbers.old))) }
    ensures { ((((from.at.0 < result.at.0) × (result.at.0 ≤ length source.now)) × (NextBracket source.now result.at.0 result.bracket.0 × FewAt result.at.0 result.quote result.counts.losses result.counts.bytes)) × ListsToken source.now (tags 1 0 post.now) (take base numbers.old) loss_bytes.old from.at.0 from.quote from.next from.counts.losses from.counts.bytes (take base numbers.new) loss_bytes.new result.at.0 result.quote result.next result.counts.losses result.counts.bytes) × ((drop base numbers.new ≡ drop base numbers.old) × ((from.«open» ≤ deep_most → DepthBehind source.now from.at.0 from.«open» result.at.0 result.«open») × ((deep_most < from.«open» → result.«open» ≡ from.«open») × (result.«open» ≤ deep_most + 1)))) }
{
    let tag = tag_at(source, from.at, from.bracket);
    let bracket = tag.bracket;
    match tag.kind {
        Kind::Opener(k) => {
            let a = from.at.0 + 7;
            let e = a + attribution_size(k);
            let tags = Tags {
                text: post,
                numbers: &numbers[base..],
                t: 0,
                count,
            };
            let found = tags.line_of(from.next, &source[a..e]);
            let counts = put_losses(
                &source[a..e],
                from.quote as u32,
                found.line,
                &mut numbers[..base],
                from.counts.losses,
                loss_bytes,
                from.counts.bytes,
            );
            Listing {
                at: PostAt(from.at.0 + k),
                bracket,
                open: open_more(from.open),
                quote: from.quote + 1,
                next: found.next,
                counts,
            }
        }
        Kind::Closer(k) => Listing {
            at: PostAt(from.at.0 + k),
            bracket,
            open: open_less(from.open),
            ..from
        },
        Kind::Plain => Listing {
            at: next_tag(source, PostAt(from.at.0 + 1)),
            bracket,
            ..from
        },
    }
}

// How many losses a text has, and how many bytes their fields; and whether an opener is met while as many quotes are open as may be.
// A flag beside the counts: they are promised of a text that is too deep, too.
#[derive(Clone, Copy)]
pub struct Listed {
    pub counts: Counts,
    pub deep: bool,
}

// Lists the losses of all quotes of a text, and counts how deep they stand.
pub fn list_losses(
    source: &[u8],
    post: &[u8],
    numbers: &mut [u32],
    base: usize,
    count: usize,
    loss_bytes: &mut [u8],
) -> Listed
    requires { (length source.now ≤ out_most) × (Table post.now (drop base numbers.old) 0 count × (base ≤ length numbers.old)) }
    ensures { ListsLosses source.now (tags 1 0 post.now) (take base numbers.old) loss_bytes.old (take base numbers.new) loss_bytes.new result.counts.losses result.counts.bytes × TooDeep source.now result.deep }
{
    let mut listing = Listing {
        at: PostAt(0),
        bracket: next_bracket(source, PostAt(0)),
        open: 0,
        quote: 1,
        next: 0,
        counts: Counts {
            losses: 0,
            bytes: 0,
        },
    };
    // A while: a token's length is the step.
    while listing.at.0 < source.len() {
        listing = list_token(source, post, numbers, base, count, listing, loss_bytes);
    }
    Listed {
        counts: listing.counts,
        deep: DEEP_MOST < listing.open,
    }
}
