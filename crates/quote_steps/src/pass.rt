// The pass in work memory, over cells that are handed to it. Where a content would go past its area, the need exceeds the room.
ghost use Rattle.std.specs.Prelude.{◌≡◌, false, [], ◌≤◌, take};
ghost use Rattle.text.specs.Cells.{cells};
ghost use Rattle.quote_blocks.specs.Quotes.{too_deep};
ghost use Rattle.quote_steps.specs.Passes.{Lent, PassedIn};
ghost use Rattle.quote_steps.specs.Memories.{Same, Ready, TakesToken, RunsAll, ClosesAll};

use crate::close::{Areas, Memory};
use crate::stack::{Opened, Stack};
use quote_tags::tag::{Kind, next_tag, tag_at};
use text::area::copy_within;
use text::scan::next_bracket;
use text::{PostAt, WorkAt};

// How much of the text is taken: up to which place, where the next `]` stands, and where the contents end.
#[derive(Clone, Copy)]
pub struct Taken {
    pub at: PostAt,
    pub bracket: PostAt,
    pub to: WorkAt,
}

// What is reached behind all of the text: where the contents end, and how many cells they had at most before.
#[derive(Clone, Copy)]
pub struct Reached {
    pub to: WorkAt,
    pub seen: usize,
}

// Where the text ends that the pass writes, and its need.
#[derive(Clone, Copy)]
pub struct Passed {
    pub end: WorkAt,
    pub need: usize,
}

impl Memory<'_> {
    // Takes one token of the text, a text with all up to the next place where a quote tag may begin.
    fn take_token(&mut self, opened: &mut Stack, from: Taken) -> Taken
        requires { Ready self.old opened.old from }
        ensures same { Same self.old self.new }
        ensures taken { TakesToken self.old opened.old from self.new opened.new result }
    {
        let m = self.areas;
        let tag = tag_at(self.text(), from.at, from.bracket);
        let bracket = tag.bracket;
        match tag.kind {
            Kind::Opener(k) => {
                opened.push(Opened {
                    start: from.to,
                    tag: from.at,
                });
                Taken {
                    at: PostAt(from.at.0 + k),
                    bracket,
                    ..from
                }
            }
            Kind::Closer(k) => {
                let at = PostAt(from.at.0 + k);
                let Some(quote) = opened.pop() else {
                    return Taken {
                        at,
                        bracket,
                        ..from
                    };
                };
                let to = self.close_innermost(quote, from.to);
                Taken { at, bracket, to }
            }
            Kind::Plain => {
                let at = next_tag(self.text(), PostAt(from.at.0 + 1));
                let first = WorkAt(from.at.0);
                let to = copy_within(
                    self.work,
                    self.numbers,
                    first,
                    WorkAt(at.0),
                    m.end.0,
                    from.to,
                );
                Taken { at, bracket, to }
            }
        }
    }

    // Takes all tokens of the text, if they fit.
    fn take_tokens(&mut self, opened: &mut Stack) -> Option<Reached>
        requires { (opened.old ≡ []) × (too_deep (take self.old.areas.text.0 (cells self.old.work.now self.old.numbers.now)) ≡ false) }
        ensures same { Same self.old self.new }
        ensures runs { RunsAll self.old self.new opened.new result }
    {
        let m = self.areas;
        let mut taken = Taken {
            at: PostAt(0),
            bracket: next_bracket(self.text(), PostAt(0)),
            to: m.base,
        };
        let mut seen: usize = 0;
        // A while: a token's length is the step.
        while taken.at.0 < m.text.0 {
            seen = seen.max(taken.to.0 - m.base.0);
            taken = self.take_token(opened, taken);
            if m.end.0 < taken.to.0 {
                return None;
            }
        }
        Some(Reached { to: taken.to, seen })
    }

    // Closes what is open, innermost first, if it fits.
    fn close_open(&mut self, opened: &mut Stack, from: Reached) -> Option<Passed>
        requires { (self.old.areas.base.0 ≤ from.to.0) × (from.to.0 ≤ self.old.areas.end.0) }
        ensures same { Same self.old self.new }
        ensures closed { ClosesAll self.old opened.old from self.new result }
    {
        let m = self.areas;
        let mut to = from.to;
        let mut need = from.seen;
        while let Some(quote) = opened.pop() {
            need = need.max(to.0 - m.base.0);
            to = self.close_innermost(quote, to);
            if m.end.0 < to.0 {
                return None;
            }
        }
        Some(Passed {
            end: to,
            need: need.max(to.0 - m.base.0),
        })
    }
}

// The whole pass: what it writes stands from base on. None where its need exceeds the room.
pub fn quote_pass(work: &mut [u8], numbers: &mut [u32], areas: Areas) -> Option<Passed>
    requires { Lent areas work.old numbers.old × (too_deep (take areas.text.0 (cells work.old numbers.old)) ≡ false) }
    ensures { PassedIn areas work.old numbers.old work.new numbers.new result }
{
    let mut memory = Memory {
        work,
        numbers,
        areas,
    };
    let mut opened = Stack::new();
    let reached = memory.take_tokens(&mut opened)?;
    memory.close_open(&mut opened, reached)
}
