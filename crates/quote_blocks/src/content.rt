// The content of a quote, written with `> ` on each line into an area of the slices that it stands in, behind it.
ghost use Rattle.std.specs.Prelude.{◌∷◌, map, ◌≤◌};
ghost use Rattle.text.specs.Cells.{cells, part, feed};
ghost use Rattle.text.specs.Lines.{trim, lines, followed};
ghost use Rattle.text.specs.Writers.{Wrote};
ghost use Rattle.quote_blocks.specs.Quotes.{quoted_line, quoted_lines};

use text::WorkAt;
use text::writer::Writer;

// Appends a line of a quote.
fn put_line(w: &mut Writer<'_>, a: WorkAt, e: WorkAt)
    requires { (a.0 ≤ e.0) × ((e.0 ≤ w.old.at.0) × (e.0 ≤ w.old.end)) }
    ensures { Wrote w.old w.new (quoted_line (part a.0 e.0 (cells w.old.bytes.now w.old.numbers.now))) }
{
    let blank = w.all_blank(a, e);
    w.put_sign(b'>');
    if blank {
        return;
    }
    w.put_space();
    w.copy_within(a, e);
}

// Appends the lines from a up to e, each behind a line feed. A while: lines differ in length.
fn put_more_lines(w: &mut Writer<'_>, a: WorkAt, e: WorkAt)
    requires { (e.0 ≤ w.old.at.0) × (e.0 ≤ w.old.end) }
    ensures { Wrote w.old w.new (followed (map quoted_line (lines (part a.0 e.0 (cells w.old.bytes.now w.old.numbers.now))))) }
{
    let mut i = a.0;
    while i < e.0 {
        let j = w.line_end(WorkAt(i), e);
        w.put_feed();
        put_line(w, WorkAt(i), j);
        i = j.0 + 1;
    }
}

// Appends the lines of a trimmed content, `>` alone where it is empty.
fn put_lines(w: &mut Writer<'_>, a: WorkAt, e: WorkAt)
    requires { (a.0 ≤ e.0) × ((e.0 ≤ w.old.at.0) × (e.0 ≤ w.old.end)) }
    ensures { Wrote w.old w.new (quoted_lines (lines (part a.0 e.0 (cells w.old.bytes.now w.old.numbers.now)))) }
{
    if a.0 == e.0 {
        w.put_sign(b'>');
        return;
    }
    let j = w.line_end(a, e);
    put_line(w, a, j);
    put_more_lines(w, WorkAt(j.0 + 1), e);
}

// Appends LF LF and the trimmed content from a up to e with `> ` on each line.
pub fn put_quoted(w: &mut Writer<'_>, a: WorkAt, e: WorkAt)
    requires { (a.0 ≤ e.0) × ((e.0 ≤ w.old.at.0) × (e.0 ≤ w.old.end)) }
    ensures { Wrote w.old w.new (feed ∷ feed ∷ quoted_lines (lines (trim (part a.0 e.0 (cells w.old.bytes.now w.old.numbers.now))))) }
{
    let start = w.trim_start(a, e);
    let end = w.trim_end(start, e);
    w.put_feed();
    w.put_feed();
    put_lines(w, start, end);
}
