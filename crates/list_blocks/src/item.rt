// The writers of an item. What is appended stands in the writer's pair of slices, before its area.
ghost use Rattle.std.specs.Prelude.{◌≡◌, cond, ◌∷◌, map, ◌+◌, ◌≤◌, ◌<◌, ◌%◌, length, replicate, eqb, leb};
ghost use Rattle.text.specs.Cells.{cell, cells, part, feed};
ghost use Rattle.text.specs.Lines.{followed, joined};
ghost use Rattle.text.specs.Decimal.{decimal};
ghost use Rattle.text.specs.Writers.{Wrote};
ghost use Rattle.list_blocks.specs.Blocks.{marker, kind_of, later_line, indented, marked, trimmed, LineAt};

use text::WorkAt;
use text::cell::RULE_BLANK;
use text::writer::Writer;

// A list's kind: whether it is ordered, and whether it has the second marker of the two.
#[derive(Clone, Copy, Debug, PartialEq, Eq)]
pub struct Kind {
    pub ordered: bool,
    pub second: bool,
}

// Its number in the table of open lists.
impl From<Kind> for u32 {
    ghost from_gives = { λ kind code. code ≡ kind_of kind.ordered kind.second };

    fn from(kind: Kind) -> u32 {
        2 * u32::from(kind.ordered) + u32::from(kind.second)
    }
}

impl From<u32> for Kind {
    ghost from_gives = { λ code kind. (kind.ordered ≡ leb 2 code) × (kind.second ≡ eqb (code % 2) 1) };

    fn from(code: u32) -> Kind {
        Kind {
            ordered: 2 <= code,
            second: code % 2 == 1,
        }
    }
}

impl Kind {
    // The sign at a marker's end, before the space.
    fn sign(self) -> u8
        ensures { result ≡ cond self.ordered (cond self.second 41 46) (cond self.second 42 45) }
    {
        match (self.ordered, self.second) {
            (false, false) => b'-',
            (false, true) => b'*',
            (true, false) => b'.',
            (true, true) => b')',
        }
    }

    // How wide the marker of an item is.
    fn marker_width(self, index: u32) -> usize
        ensures { result ≡ length (marker self.ordered self.second index) }
    {
        if self.ordered { digits(index) + 2 } else { 2 }
    }
}

// How many digits a number has.
fn digits(n: u32) -> usize
    ensures { (result ≡ length (decimal n)) × (result ≤ n + 1) }
{
    if n < 10 { 1 } else { digits(n / 10) + 1 }
}

// Appends a byte n times that a rule writes and that is blank.
pub fn put_blanks(w: &mut Writer, b: u8, n: usize)
    ensures { Wrote w.old w.new (replicate n (cell b 1)) }
{
    for _ in 0..n {
        w.put(b, RULE_BLANK);
    }
}

// Appends the marker of an item.
fn put_marker(w: &mut Writer, kind: Kind, index: u32)
    ensures { Wrote w.old w.new (marker kind.ordered kind.second index) }
{
    if kind.ordered {
        w.put_decimal(index);
    }
    w.put_sign(kind.sign());
    w.put_space();
}

// Where the first line of the cells from a up to e ends, and where it ends when it is trimmed.
fn line_at(w: &Writer, a: WorkAt, e: WorkAt) -> (WorkAt, WorkAt)
    requires { (a.0 < e.0) × (e.0 ≤ w.now.end) }
    ensures { LineAt w.now a.0 e.0 result.0.0 result.1.0 }
{
    let end = w.line_end(a, e);
    (end, w.trim_end(a, end))
}

// Appends a line feed and a line after an item's first.
fn put_later(w: &mut Writer, a: WorkAt, e: WorkAt, width: usize)
    requires { (a.0 ≤ e.0) × ((e.0 ≤ w.old.at.0) × (e.0 ≤ w.old.end)) }
    ensures { Wrote w.old w.new (feed ∷ later_line width (part a.0 e.0 (cells w.old.bytes.now w.old.numbers.now))) }
{
    w.put_feed();
    if a.0 < e.0 {
        put_blanks(w, b' ', width);
        w.copy_within(a, e);
    }
}

// Appends all lines after an item's first. A while: the steps differ.
fn put_later_lines(w: &mut Writer, a: WorkAt, e: WorkAt, width: usize)
    requires { (e.0 ≤ w.old.at.0) × (e.0 ≤ w.old.end) }
    ensures { Wrote w.old w.new (followed (map (later_line width) (trimmed (part a.0 e.0 (cells w.old.bytes.now w.old.numbers.now))))) }
{
    let mut i = a.0;
    while i < e.0 {
        let (end, trimmed) = line_at(w, WorkAt(i), e);
        put_later(w, WorkAt(i), trimmed, width);
        i = end.0 + 1;
    }
}

// Appends lines, each end trimmed, all after the first indented.
pub fn put_lines(w: &mut Writer, a: WorkAt, e: WorkAt, width: usize)
    requires { (a.0 < e.0) × ((e.0 ≤ w.old.at.0) × (e.0 ≤ w.old.end)) }
    ensures { Wrote w.old w.new (joined (indented width (trimmed (part a.0 e.0 (cells w.old.bytes.now w.old.numbers.now))))) }
{
    let (end, trimmed) = line_at(w, a, e);
    w.copy_within(a, trimmed);
    put_later_lines(w, WorkAt(end.0 + 1), e, width);
}

// Appends an item that is not empty, of the cells from a up to e, behind its marker.
pub fn put_item(w: &mut Writer, a: WorkAt, e: WorkAt, kind: Kind, index: u32)
    requires { (a.0 < e.0) × ((e.0 ≤ w.old.at.0) × (e.0 ≤ w.old.end)) }
    ensures { Wrote w.old w.new (marked (marker kind.ordered kind.second index) (trimmed (part a.0 e.0 (cells w.old.bytes.now w.old.numbers.now)))) }
{
    put_marker(w, kind, index);
    put_lines(w, a, e, kind.marker_width(index));
}
