// Closing a list: its block is built behind the contents, and takes the place of what it held.
ghost use Rattle.std.specs.Prelude.{◌≡◌, cond, ◌+◌, ◌≤◌, ◌<◌, length, eqb};
ghost use Rattle.text.specs.Bounds.{number_most};
ghost use Rattle.text.specs.Writers.{Wrote};
ghost use Rattle.list_steps.specs.Standing.{feed_at, feeds_before, closing_at, FrameAt, Framed, close_inner, Spaced, Starts, ReadyIn, StepsIn};

use list_blocks::block::put_block;
use list_blocks::item::{Kind, put_blanks};
use text::WorkAt;
use text::area::copy_back;
use text::bounds::FULL;
use text::trim::is_feed;
use text::writer::Writer;

// The areas of the pair of slices: all open contents stand from `base` up to `end`; behind them, in as much room as they have, the block of a list that
// is closed is built; and the table of open lists stands in the numbers alone, from `table` on.
#[derive(Clone, Copy)]
pub struct Areas {
    pub base: WorkAt,
    pub end: WorkAt,
    pub table: WorkAt,
}

// The state in the slices: the contents end at `at`; the table ends at `top`, and its last frame stands at `first`; the next list that is
// opened has the second marker.
#[derive(Clone, Copy)]
pub struct Machine {
    pub at: WorkAt,
    pub top: WorkAt,
    pub first: WorkAt,
    pub second: bool,
}

// A frame of the table: where the frame of the list around its own stands, its list's kind, and where the list's lead begins.
#[derive(Clone, Copy)]
struct Frame {
    outer: usize,
    kind: Kind,
    lead: usize,
}

fn frame_at(numbers: &[u32], first: WorkAt) -> Frame
    requires { (first.0 + 2 < length numbers.now) × (length numbers.now ≤ number_most) }
    ensures { FrameAt numbers.now first.0 result.outer result.kind.ordered result.kind.second result.lead }
{
    Frame {
        outer: numbers[first.0] as usize,
        kind: Kind::from(numbers[first.0 + 1]),
        lead: numbers[first.0 + 2] as usize,
    }
}

// Whether a line feed goes before the block of an inner list: it goes to an item that is not empty and has no final one.
fn feed_at(w: &Writer, first: WorkAt) -> bool
    requires { (0 < first.0) × Starts w.now.bytes.now w.now.numbers.now first.0 }
    ensures { result ≡ feed_at w.now.bytes.now w.now.numbers.now first.0 }
{
    let frame = frame_at(w.numbers, first);
    let start = w.numbers[first.0 - 1] as usize;
    let end = frame.lead;
    if first.0 <= frame.outer + 3 {
        return false;
    }
    start < end && !is_feed(w.bytes[end - 1], w.numbers[end - 1])
}

// How many line feeds go before a block.
fn feeds_before(w: &Writer, first: WorkAt, table: WorkAt) -> usize
    requires { (table.0 ≤ first.0) × Starts w.now.bytes.now w.now.numbers.now first.0 }
    ensures { result ≡ feeds_before w.now.bytes.now w.now.numbers.now first.0 table.0 }
{
    if first.0 == table.0 {
        2
    } else {
        usize::from(feed_at(w, first))
    }
}

// How many go behind it.
fn feeds_behind(first: WorkAt, table: WorkAt) -> usize
    ensures { result ≡ cond (eqb first.0 table.0) 2 1 }
{
    if first.0 == table.0 { 2 } else { 1 }
}

impl Machine {
    // Appends what the innermost list gives to the content that it stands in, behind the contents.
    fn put_closing(self, areas: Areas, w: &mut Writer)
        requires { Framed w.old.bytes.now w.old.numbers.now areas.table.0 self.at.0 self.top.0 self.first.0 × (((self.at.0 ≤ w.old.at.0) × (w.old.at.0 ≤ w.old.end)) × (w.old.end ≤ areas.table.0)) }
        ensures { Wrote w.old w.new (closing_at w.old.bytes.now w.old.numbers.now areas.table.0 self.at.0 self.top.0 self.first.0) }
    {
        let kind = Kind::from(w.numbers[self.first.0 + 1]);
        let before = feeds_before(w, self.first, areas.table);
        put_blanks(w, b'\n', before);
        put_block(w, WorkAt(self.first.0 + 2), self.top, self.at, kind);
        put_blanks(w, b'\n', feeds_behind(self.first, areas.table));
    }

    // Closes the innermost list. What stands outside of the areas stays, here and in each step, where the block does not fit too.
    pub fn close_list(&mut self, areas: Areas, work: &mut [u8], numbers: &mut [u32])
        requires { ReadyIn work.old numbers.old areas self.old × ((areas.table.0 < self.old.top.0) × Spaced areas (length work.old) (length numbers.old)) }
        ensures { StepsIn close_inner 0 areas work.old numbers.old self.old work.new numbers.new self.new × (self.new.top.0 < self.old.top.0) }
    {
        let frame = frame_at(numbers, self.first);
        let limit = areas.end.0 + (areas.end.0 - areas.base.0);
        let mut w = Writer {
            bytes: work,
            numbers,
            at: areas.end,
            end: limit,
        };
        self.put_closing(areas, &mut w);
        let built = w.at;
        self.top = self.first;
        self.first = WorkAt(frame.outer);
        self.second = !frame.kind.second;
        if built.0 <= limit {
            self.at = copy_back(
                work,
                numbers,
                areas.end,
                built,
                areas.end.0,
                WorkAt(frame.lead),
            );
        } else {
            self.at = WorkAt(FULL);
        }
    }
}
