// Writing a slot, whose text stands in the writer's pair of slices behind its area. A slot is given by the number of its first item.
ghost use Rattle.std.specs.Prelude.{◌≡◌, cond, ◌+◌, ◌*◌, ◌%◌, ◌≤◌, ◌<◌, get_or};
ghost use Rattle.mark_tags.specs.Flat.{kind_numbered};
ghost use Rattle.mark_tags.specs.Kinds.{as_kind};
ghost use Rattle.mark_writing.specs.Laid.{source, table, TableIn, HeldIn, SlotAsked, SlotDone, TextAsked, TextDone, MarkAsked, MarkDone, BodyAsked, BodyDone};

use crate::look::{Items, Seen};
use mark_pieces::mark::{Body, finish_mark};
use mark_pieces::piece::write_piece;
use mark_tags::kind::Kind;
use text::writer::Writer;
use text::{PostAt, WorkAt, in_work};

// A text in a writer's pair of slices, behind its area: `size` cells from `base` on, `items` items in the numbers behind them.
#[derive(Clone, Copy)]
pub struct Layout {
    pub base: WorkAt,
    pub size: usize,
    pub items: usize,
}

impl Layout {
    // The items of the text.
    fn items_of<'a>(self, w: &'a Writer<'_>) -> Items<'a>
        requires { HeldIn self w.now }
        ensures { (result.text.now ≡ source self w.now.bytes.now) × ((result.nums.now ≡ table self w.now.numbers.now) × (result.k ≡ self.items)) }
    {
        let base = self.base.0;
        Items {
            text: &w.bytes[base..base + self.size],
            nums: &w.numbers[base..],
            k: self.items,
        }
    }

    // The kind of the mark that starts at item i.
    fn kind_at(self, w: &Writer<'_>, i: usize) -> Kind
        requires { TableIn self w.now.numbers.now × (i < self.items) }
        ensures { as_kind result ≡ kind_numbered (get_or (table self w.now.numbers.now) (2 * self.size + 2 + i) 0 % 4) }
    {
        Kind::of_code(w.numbers[self.base.0 + (2 * self.size + 2 + i)])
    }

    // Where item j starts.
    fn bound_at(self, w: &Writer<'_>, j: usize) -> PostAt
        requires { TableIn self w.now.numbers.now × (j ≤ self.items) }
        ensures { result.0 ≡ get_or (table self w.now.numbers.now) (self.size + j) 0 }
    {
        PostAt(w.numbers[self.base.0 + (self.size + j)] as usize)
    }
}

// What writing a slot leaves: the item behind it, and how many span numbers are listed.
#[derive(Clone, Copy)]
pub struct Went {
    pub item: usize,
    pub count: usize,
}

// A mark that is begun, in a slot where the kinds of a mask are open: the byte before it, its delimiter, where it starts, how many span numbers are
// listed before it.
#[derive(Clone, Copy)]
pub struct Begun {
    pub mask: u32,
    pub before: usize,
    pub d: u8,
    pub start: WorkAt,
    pub count: usize,
}

// What writing a mark leaves for the next item: that item, how many span numbers are listed, the last byte written, and whether a `}` is to be escaped.
#[derive(Clone, Copy)]
pub struct Drawn {
    pub item: usize,
    pub count: usize,
    pub before: usize,
    pub guarded: bool,
}

// The last byte of a mark.
pub fn last_of(braces: bool, d: u8) -> usize
    ensures { result ≡ cond braces 125 d }
{
    usize::from(if braces { b'}' } else { d })
}

// Writes a slot that is one text: at once, since nothing is guarded before it or written behind it.
fn write_text(w: &mut Writer<'_>, text: Layout, from: usize, count: usize) -> Went
    requires { TextAsked text w.old from }
    ensures { TextDone text w.old from count w.new result }
{
    let a = in_work(text.base, text.bound_at(w, from));
    let e = in_work(text.base, text.bound_at(w, from + 1));
    w.copy_back(a, e);
    Went {
        item: from + 2,
        count,
    }
}

// Ends a mark whose body is written.
fn end_mark(w: &mut Writer<'_>, text: Layout, mark: Begun, spans: &mut [u32], body: Went) -> Drawn
    requires { BodyAsked text mark body w.old spans.old }
    ensures { BodyDone text mark body w.old spans.old w.new spans.new result }
{
    if w.end < w.at.0 {
        return Drawn {
            item: body.item,
            count: body.count,
            before: 256,
            guarded: false,
        };
    }
    let depth = 4 - mark.mask.count_ones() as usize;
    let next = text.items_of(w).next_of(body.item, depth);
    let whole = Body {
        start: mark.start,
        span: mark.count,
        listed: body.count,
    };
    let braces = finish_mark(w, spans, whole, mark.d, mark.before, next.byte());
    Drawn {
        item: body.item,
        count: body.count,
        before: last_of(braces, mark.d),
        guarded: !braces & (mark.before == 123),
    }
}

// Writes the mark that starts at item i, in a slot where the kinds of a mask are open.
#[cycle(write_mark_write_slot)]
pub fn write_mark(
    w: &mut Writer<'_>,
    text: Layout,
    i: usize,
    mask: u32,
    before: usize,
    spans: &mut [u32],
    count: usize,
) -> Drawn
    requires { MarkAsked text w.old i mask before count }
    ensures { MarkDone text w.old i before spans.old count w.new spans.new result }
{
    let kind = text.kind_at(w, i);
    let d = kind.delimiter();
    let mark = Begun {
        mask,
        before,
        d,
        start: w.at,
        count,
    };
    w.put_sign(d);
    if text.items_of(w).is_one_text(i + 1) {
        let body = write_text(w, text, i + 1, count + 2);
        return end_mark(w, text, mark, spans, body);
    }
    let body = write_slot(w, text, i + 1, mask | kind.bit(), spans, count + 2);
    end_mark(w, text, mark, spans, body)
}

// Writes the slot that starts at item `from`, where the kinds of a mask are open.
#[cycle(write_mark_write_slot)]
pub fn write_slot(
    w: &mut Writer<'_>,
    text: Layout,
    from: usize,
    mask: u32,
    spans: &mut [u32],
    count: usize,
) -> Went
    requires { SlotAsked text w.old from mask count }
    ensures { SlotDone text w.old from spans.old count w.new spans.new result }
{
    let depth = 4 - mask.count_ones() as usize;
    let k = text.items;
    let mut i = from;
    let mut c = count;
    // 256 for no character, as a table is read without a branch
    let mut before: usize = 256;
    let mut guarded = false;
    // A while: the steps differ.
    while i < k {
        match text.items_of(w).look(i, depth) {
            Seen::End => {
                return Went {
                    item: i + 1,
                    count: c,
                };
            }
            Seen::Text {
                a,
                e,
                touches,
                last,
            } => {
                let from = in_work(text.base, a);
                let behind = in_work(text.base, e);
                write_piece(w, from, behind, guarded, touches);
                before = usize::from(last);
                guarded = false;
                i += 1;
            }
            Seen::Skip(item) => i = item,
            Seen::Mark => {
                let mark = write_mark(w, text, i, mask, before, spans, c);
                i = mark.item;
                c = mark.count;
                before = mark.before;
                guarded = mark.guarded;
            }
        }
    }
    Went { item: i, count: c }
}
