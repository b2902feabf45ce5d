// Closing a quote: its block takes the place of its content. The block is built in an area of its own behind the contents, with the joined texts of the
// attribution behind that, and copied back. What does not fit ends past every end, at FULL, as it does for text's area.
ghost use Rattle.std.specs.Prelude.{◌≡◌, ◌-◌, ◌≤◌, length, take, drop};
ghost use Rattle.text.specs.Cells.{cells, part};
ghost use Rattle.text.specs.Writes.{AppendsIn};
ghost use Rattle.attribution_parts.specs.Attribution.{caption};
ghost use Rattle.attribution.specs.Spoken.{said, Spoken};
ghost use Rattle.quote_tags.specs.Tags.{attribution_of};
ghost use Rattle.quote_blocks.specs.Quotes.{quote_block};
ghost use Rattle.quote_steps.specs.Passes.{Lent, Content};

use crate::stack::Opened;
use attribution::caption::Words;
use attribution_losses::join::join_texts;
use quote_blocks::block::quote_block;
use quote_tags::tag::opener_size;
use text::area::copy_back;
use text::bounds::FULL;
use text::scan::next_bracket;
use text::writer::Writer;
use text::{PostAt, WorkAt};

// Where the pass stands in work memory: its text before `text`, the open contents one behind another from `base` up to `end`, the block of a quote that
// is closed from there up to `top`, and behind that, in the bytes alone, the joined texts of an attribution.
#[derive(Clone, Copy)]
pub struct Areas {
    pub text: WorkAt,
    pub base: WorkAt,
    pub end: WorkAt,
    pub top: WorkAt,
}

// The work memory of the pass: the lent bytes and numbers, and the areas in them.
#[derive(Drop)]
pub struct Memory<'a> {
    pub work: &'a mut [u8],
    pub numbers: &'a mut [u32],
    pub areas: Areas,
    ghost lent: { Lent areas work.now numbers.now },
}

// Where an attribution stands in the text.
#[derive(Clone, Copy)]
pub struct Extent {
    pub from: PostAt,
    pub to: PostAt,
}

// The attribution of the opener at a place: between `[quote=` and `]`.
fn attribution_of(s: &[u8], tag: PostAt) -> Extent
    requires { tag.0 ≤ length s.now }
    ensures { ((result.from.0 ≤ result.to.0) × (result.to.0 ≤ length s.now)) × (take (result.to.0 - result.from.0) (drop result.from.0 s.now) ≡ attribution_of (drop tag.0 s.now)) }
{
    let bracket = next_bracket(s, tag);
    match opener_size(s, tag, bracket) {
        Some(k) if 9 <= k => Extent {
            from: PostAt(tag.0 + 7),
            to: PostAt(tag.0 + k - 1),
        },
        _ => Extent { from: tag, to: tag },
    }
}

// Puts the block of a quote, whose content stands from `start` up to `to`, behind the contents. (Of two slices: it is not known what a
// writer over fields of a reference leaves there.)
fn put_block(
    work: &mut [u8],
    numbers: &mut [u32],
    m: Areas,
    start: WorkAt,
    to: WorkAt,
    words: Words,
) -> WorkAt
    requires reach { (m.top.0 ≤ length work.old) × (m.top.0 ≤ length numbers.old) }
    requires content { (start.0 ≤ to.0) × ((to.0 ≤ m.end.0) × (to.0 ≤ m.top.0)) }
    requires spoken { Spoken work.old m.end.0 m.top.0 words }
    ensures { AppendsIn work.old numbers.old m.top.0 m.end.0 work.new numbers.new result.0 (quote_block (caption (said words work.old)) (part start.0 to.0 (cells work.old numbers.old))) }
{
    let mut w = Writer {
        bytes: work,
        numbers,
        at: m.end,
        end: m.top.0,
    };
    quote_block(&mut w, start, to, words);
    w.at
}

impl Memory<'_> {
    ghost use Rattle.quote_steps.specs.Memories.{Same, Built, ClosesQuote, ClosesInner};

    // The text that is passed.
    pub fn text(&self) -> &[u8]
        ensures { result.now ≡ take self.now.areas.text.0 self.now.work.now }
    {
        &self.work[..self.areas.text.0]
    }

    // Builds the block of a quote, whose content ends at `to`. Joined texts that do not fit make no caption that does.
    fn build_block(&mut self, quote: Opened, to: WorkAt) -> WorkAt
        requires { (quote.tag.0 ≤ self.old.areas.text.0) × Content self.old.areas quote.start.0 to.0 }
        ensures same { Same self.old self.new }
        ensures block { Built self.old quote.tag.0 quote.start.0 to.0 self.new result.0 }
    {
        let m = self.areas;
        let name = attribution_of(self.text(), quote.tag);
        let past = join_texts(self.work, name.from.0, name.to.0, m.top.0);
        if self.work.len() < past {
            return WorkAt(FULL);
        }
        let words = Words {
            from: WorkAt(name.from.0),
            to: WorkAt(name.to.0),
            joined: m.top,
            past: WorkAt(past),
        };
        put_block(self.work, self.numbers, m, quote.start, to, words)
    }

    // Replaces the content of a quote, which ends at `to`, by the quote's block.
    fn close_quote(&mut self, quote: Opened, to: WorkAt) -> WorkAt
        requires { (quote.tag.0 ≤ self.old.areas.text.0) × Content self.old.areas quote.start.0 to.0 }
        ensures same { Same self.old self.new }
        ensures grows { quote.start.0 ≤ result.0 }
        ensures closed { ClosesQuote self.old quote.tag.0 quote.start.0 to.0 self.new result.0 }
    {
        let n = self.build_block(quote, to);
        let m = self.areas;
        if m.top.0 < n.0 {
            return WorkAt(FULL);
        }
        copy_back(self.work, self.numbers, m.end, n, m.end.0, quote.start)
    }

    // Closes the innermost open quote.
    pub fn close_innermost(&mut self, quote: Opened, to: WorkAt) -> WorkAt
        requires { (self.old.areas.base.0 ≤ to.0) × (to.0 ≤ self.old.areas.end.0) }
        ensures same { Same self.old self.new }
        ensures closed { ClosesInner self.old quote to.0 self.new result.0 }
    {
        let m = self.areas;
        let within = Opened {
            start: WorkAt(quote.start.0.clamp(m.base.0, to.0)),
            tag: PostAt(quote.tag.0.min(m.text.0)),
        };
        self.close_quote(within, to)
    }
}
