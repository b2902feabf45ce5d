// A mark's delimiters around its body, and its span.
ghost use Rattle.std.specs.Prelude.{◌≡◌, true, ◌≤◌, ◌<◌, ◌∷◌, ◌++◌, length, take, drop, get_or, ◌+◌, ◌-◌};
ghost use Rattle.text.specs.Ascii.{is};
ghost use Rattle.text.specs.Bounds.{out_most};
ghost use Rattle.mark_tags.specs.Marks.{braced, escape_last};
ghost use Rattle.mark_tags.specs.Flat.{behind_brace};
ghost use Rattle.mark_pieces.specs.Spans.{raised, Raisable, Finishable};
ghost use Rattle.mark_pieces.specs.Behind.{Rewrote, FinishedIn};

use crate::class::is_braced;
use crate::piece::{insert, is_even};
use text::WorkAt;
use text::writer::Writer;

// Whether the mark whose body stands from place p up to `end` takes the braced form.
pub fn takes_braces(buf: &[u8], p: WorkAt, end: WorkAt, d: u8, before: usize, next: usize) -> bool
    requires { ((p.0 < end.0) × (end.0 ≤ length buf.now)) × ((before ≤ 256) × (next ≤ 256)) }
    ensures { result ≡ braced d (get_or buf.now p.0 0) (get_or buf.now (end.0 - 1) 0) before next }
{
    is_braced(
        usize::from(d),
        usize::from(buf[p.0]),
        usize::from(buf[end.0 - 1]),
        before,
        next,
    )
}

// Escapes a last `{` of the cells from place p on.
pub fn escape_brace(w: &mut Writer<'_>, p: WorkAt)
    requires { (p.0 < w.old.at.0) × (w.old.at.0 ≤ w.old.end) }
    ensures { Rewrote (escape_last (is "{") true) p.0 w.old w.new }
{
    let last = WorkAt(w.at.0 - 1);
    if w.source()[last.0] == b'{' && is_even(w.source(), p, last) {
        insert(w, last, b'\\');
    }
}

// The closing delimiter of a mark that starts at place p with its opening one.
pub fn close_mark(w: &mut Writer<'_>, p: WorkAt, d: u8, braces: bool)
    requires { p.0 ≤ w.old.at.0 }
    ensures { Rewrote (behind_brace braces d) p.0 w.old w.new }
{
    if braces {
        insert(w, p, b'{');
        w.put_sign(d);
        w.put_sign(b'}');
    } else {
        w.put_sign(d);
    }
}

// Raises the span numbers from a up to e.
fn raise_spans(spans: &mut [u32], a: usize, e: usize, by: u32)
    requires { ((a ≤ e) × (e ≤ length spans.old)) × ((by ≤ 1) × Raisable spans.old a e) }
    ensures { take e spans.new ≡ take a spans.old ++ raised by (drop a (take e spans.old)) }
{
    for x in &mut spans[a..e] {
        *x += by;
    }
}

// Lists a mark's span before those inside it, which stand from c + 2 up to e and are raised; nothing where the spans end before e. Its numbers are
// places in the text, which stands at the front of work memory.
fn put_span(spans: &mut [u32], c: usize, e: usize, start: usize, end: usize, by: u32)
    requires { ((c + 2 ≤ e) × ((start ≤ out_most) × (end ≤ out_most))) × ((by ≤ 1) × (e ≤ length spans.old → Raisable spans.old (c + 2) e)) }
    ensures { e ≤ length spans.old → take e spans.new ≡ take c spans.old ++ (start ∷ end ∷ raised by (drop (c + 2) (take e spans.old))) }
{
    if e <= spans.len() {
        raise_spans(spans, c + 2, e, by);
        spans[c] = start as u32;
        spans[c + 1] = end as u32;
    }
}

// A mark that is written up to the end of its body: where it starts, where its span is to be listed and where those inside it end.
#[derive(Clone, Copy)]
pub struct Body {
    pub start: WorkAt,
    pub span: usize,
    pub listed: usize,
}

// Finishes a mark whose body ends at the writer's place; whether it took the braced form. Spans that are lent too short for it and for those inside it
// are not written.
pub fn finish_mark(
    w: &mut Writer<'_>,
    spans: &mut [u32],
    body: Body,
    d: u8,
    before: usize,
    next: usize,
) -> bool
    requires { Finishable (take w.old.end w.old.bytes.now) (take w.old.end w.old.numbers.now) body.start.0 w.old.at.0 spans.old body.span body.listed before next }
    ensures { FinishedIn w.old body.start.0 spans.old body.span body.listed d before next w.new spans.new result }
{
    let first = WorkAt(body.start.0 + 1);
    let braces = takes_braces(w.source(), first, w.at, d, before, next);
    escape_brace(w, first);
    close_mark(w, body.start, d, braces);
    if w.at.0 <= w.end {
        put_span(
            spans,
            body.span,
            body.listed,
            body.start.0,
            w.at.0,
            u32::from(braces),
        );
    }
    braces
}
