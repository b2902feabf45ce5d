// The block of a quote, written into an area of the slices that its content and its attribution stand in.
ghost use Rattle.std.specs.Prelude.{◌≤◌};
ghost use Rattle.text.specs.Cells.{cells, part};
ghost use Rattle.text.specs.Writers.{Wrote};
ghost use Rattle.attribution_parts.specs.Attribution.{caption};
ghost use Rattle.attribution.specs.Spoken.{said, Spoken};
ghost use Rattle.quote_blocks.specs.Quotes.{caption_line, quote_block};

use crate::content::put_quoted;
use attribution::caption::{Words, put_caption};
use text::WorkAt;
use text::writer::Writer;

// Appends LF `^ ` caption, if the attribution has one: where the caption turns out empty, the place before LF `^ ` is given back. Where not
// even LF `^ ` fits, the caption alone says whether it is empty.
fn put_caption_line(w: &mut Writer<'_>, words: Words)
    requires { Spoken w.old.bytes.now w.old.at.0 w.old.end words }
    ensures { Wrote w.old w.new (caption_line (caption (said words w.old.bytes.now))) }
{
    let at = w.at;
    w.put_text(b"\n^ ");
    let mark = w.at;
    if w.end < mark.0 {
        w.at = at;
        put_caption(w, words);
        if w.at.0 != at.0 {
            w.at = mark;
        }
    } else {
        put_caption(w, words);
        if w.at.0 == mark.0 {
            w.at = at;
        }
    }
}

// Appends the block of the quote with the content from a up to e, which stands before the area.
pub fn quote_block(w: &mut Writer<'_>, a: WorkAt, e: WorkAt, words: Words)
    requires { ((a.0 ≤ e.0) × ((e.0 ≤ w.old.at.0) × (e.0 ≤ w.old.end))) × Spoken w.old.bytes.now w.old.at.0 w.old.end words }
    ensures { Wrote w.old w.new (quote_block (caption (said words w.old.bytes.now)) (part a.0 e.0 (cells w.old.bytes.now w.old.numbers.now))) }
{
    put_quoted(w, a, e);
    put_caption_line(w, words);
    w.put_feed();
    w.put_feed();
}
