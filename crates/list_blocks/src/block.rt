// The writer of a list's block, into an area of the slices that its parts and their table stand in: the parts before the area, the table before
// or behind it. Its end is never written and taken away again: line feeds are held back until something follows.
ghost use Rattle.std.specs.Prelude.{◌≡◌, ◌+◌, ◌≤◌, ◌<◌, length};
ghost use Rattle.text.specs.Bounds.{number_most};
ghost use Rattle.text.specs.Cells.{cells, part};
ghost use Rattle.text.specs.Writers.{Wrote};
ghost use Rattle.list_blocks.specs.Blocks.{marker, item_text, between, head_or, TrimmedAt, Tabled, Blocked, items_at, block_at};

use crate::item::{Kind, put_blanks, put_item, put_lines};
use text::WorkAt;
use text::writer::Writer;

// The cells from a up to e, trimmed.
fn trim(w: &Writer, a: WorkAt, e: WorkAt) -> (WorkAt, WorkAt)
    requires { (a.0 ≤ e.0) × (e.0 ≤ w.now.end) }
    ensures { TrimmedAt w.now a.0 e.0 result.0.0 result.1.0 }
{
    let start = w.trim_start(a, e);
    (start, w.trim_end(start, e))
}

// Appends an item behind the line feeds held back; an empty one is held back too. How many are held back then.
fn put_next(w: &mut Writer, a: WorkAt, e: WorkAt, kind: Kind, index: u32, held: usize) -> usize
    requires { ((a.0 ≤ e.0) × ((e.0 ≤ w.old.at.0) × (e.0 ≤ w.old.end))) × (held ≤ number_most + 1) }
    ensures { Blocked w.old w.new (item_text (marker kind.ordered kind.second index) (part a.0 e.0 (cells w.old.bytes.now w.old.numbers.now))) held result }
{
    let (x, y) = trim(w, a, e);
    if x.0 == y.0 {
        return held + 1;
    }
    put_blanks(w, b'\n', held);
    put_item(w, x, y, kind, index);
    1
}

// The place at index k of the table that ends before index last, or the end of the last part.
fn place_of(w: &Writer, k: WorkAt, last: WorkAt, e: WorkAt) -> WorkAt
    requires { last.0 ≤ length w.now.numbers.now }
    ensures { result.0 ≡ head_or e.0 (between k.0 last.0 w.now.numbers.now) }
{
    if k.0 < last.0 {
        WorkAt(w.numbers[k.0] as usize)
    } else {
        e
    }
}

// Appends the items that begin at the places from index k up to index last of the table, behind line feeds held back.
fn put_items(w: &mut Writer, k: WorkAt, last: WorkAt, e: WorkAt, kind: Kind, held: usize)
    requires { ((last.0 < k.0 + number_most) × (held ≤ 1)) × Tabled w.old k.0 last.0 e.0 }
    ensures { Wrote w.old w.new (items_at w.old k.0 last.0 e.0 kind.ordered kind.second held) }
{
    let mut held = held;
    for i in k.0..last.0 {
        let a = WorkAt(w.numbers[i] as usize);
        let b = place_of(w, WorkAt(i + 1), last, e);
        held = put_next(w, a, b, kind, (i - k.0) as u32 + 1, held);
    }
}

// Appends the block of a list whose parts begin at the places from index k up to index last of the table.
pub fn put_block(w: &mut Writer, k: WorkAt, last: WorkAt, e: WorkAt, kind: Kind)
    requires { ((k.0 < last.0) × (last.0 ≤ k.0 + number_most)) × Tabled w.old k.0 last.0 e.0 }
    ensures { Wrote w.old w.new (block_at w.old k.0 last.0 e.0 kind.ordered kind.second) }
{
    let items = WorkAt(k.0 + 1);
    let a = WorkAt(w.numbers[k.0] as usize);
    let b = place_of(w, items, last, e);
    let (x, y) = trim(w, a, b);
    let held = if x.0 < y.0 {
        put_lines(w, x, y, 0);
        1
    } else {
        0
    };
    put_items(w, items, last, e, kind, held);
}
