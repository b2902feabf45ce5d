// Writing a text piece, which stands in the writer's pair of slices behind its area; and putting a byte before what is written.
ghost use Rattle.std.specs.Prelude.{◌≡◌, true, ◌&&◌, ◌-◌, ◌≤◌, ◌<◌, length, take, drop, get_or};
ghost use Rattle.text.specs.Cells.{cells, part, sign};
ghost use Rattle.text.specs.Writers.{Wrote};
ghost use Rattle.mark_tags.specs.Marks.{touching, backslash, piece_text};
ghost use Rattle.mark_tags.specs.Flat.{even_run, Inserts};
ghost use Rattle.mark_pieces.specs.Behind.{escaped_part, area, Kept};

use text::WorkAt;
use text::bounds::FULL;
use text::cell::RULE_SIGN;
use text::writer::Writer;

// Whether an even number of backslashes stands at the end of the bytes from a up to e.
pub fn is_even(s: &[u8], a: WorkAt, e: WorkAt) -> bool
    requires { (a.0 ≤ e.0) × (e.0 ≤ length s.now) }
    ensures { result ≡ even_run true (drop a.0 (take e.0 s.now)) }
{
    let run = s[a.0..e.0]
        .iter()
        .rev()
        .take_while(|b| **b == b'\\')
        .count();
    run % 2 == 0
}

// Whether a byte at the end of a text piece would be read together with a mark behind it.
pub fn is_touching(touches: bool, b: u8) -> bool
    ensures { result ≡ touching touches b }
{
    touches & ((b == b'*') | (b == b'/') | (b == b'_') | (b == b'~') | (b == b'='))
}

// Appends a backslash, or nothing.
fn put_backslash(w: &mut Writer<'_>, yes: bool)
    ensures { Wrote w.old w.new (backslash yes) }
{
    if yes {
        w.put_sign(b'\\');
    }
}

// Appends the cells from a up to e, with a backslash before the last or without; without one, all of them at once.
fn copy_escaped(w: &mut Writer<'_>, a: WorkAt, e: WorkAt, escape: bool)
    requires { ((a.0 < e.0) × (w.old.end ≤ a.0)) × ((e.0 ≤ length w.old.bytes.now) × (e.0 ≤ length w.old.numbers.now)) }
    ensures { Wrote w.old w.new (escaped_part escape a.0 e.0 (cells w.old.bytes.now w.old.numbers.now)) }
{
    if escape {
        let last = WorkAt(e.0 - 1);
        w.copy_back(a, last);
        w.put_sign(b'\\');
        w.copy_back(last, e);
    } else {
        w.copy_back(a, e);
    }
}

// Whether a text piece from a on whose last byte stands at `last` takes a backslash before it. The backslashes are counted only where it does
// touch a mark.
fn escapes_last(src: &[u8], a: WorkAt, last: WorkAt, touches: bool) -> bool
    requires { (a.0 ≤ last.0) × (last.0 < length src.now) }
    ensures { result ≡ (touching touches (get_or src.now last.0 0) && even_run true (drop a.0 (take last.0 src.now))) }
{
    touches && is_touching(true, src[last.0]) && is_even(src, a, last)
}

// Appends a text piece that is not empty, and that stands behind the area.
pub fn write_piece(w: &mut Writer<'_>, a: WorkAt, e: WorkAt, guarded: bool, touches: bool)
    requires { ((a.0 < e.0) × (w.old.end ≤ a.0)) × ((e.0 ≤ length w.old.bytes.now) × (e.0 ≤ length w.old.numbers.now)) }
    ensures { Wrote w.old w.new (piece_text guarded touches (part a.0 e.0 (cells w.old.bytes.now w.old.numbers.now))) }
{
    let src = w.source();
    let escape = escapes_last(src, a, WorkAt(e.0 - 1), touches);
    let guards = guarded & (src[a.0] == b'}');
    put_backslash(w, guards);
    copy_escaped(w, a, e, escape);
}

// Puts a byte that a rule writes before the cells from place p on, of a text that ends at `at` in a whole pair of slices.
fn insert_at(bytes: &mut [u8], numbers: &mut [u32], p: WorkAt, at: WorkAt, b: u8) -> WorkAt
    requires { (length bytes.old ≤ length numbers.old) × (p.0 ≤ at.0) }
    ensures { Inserts (cells bytes.old numbers.old) p.0 at.0 (cells bytes.new numbers.new) result.0 (sign b) }
{
    if bytes.len() <= at.0 {
        return WorkAt(FULL);
    }
    bytes.copy_within(p.0..at.0, p.0 + 1);
    numbers.copy_within(p.0..at.0, p.0 + 1);
    bytes[p.0] = b;
    numbers[p.0] = RULE_SIGN;
    WorkAt(at.0 + 1)
}

// The same in a writer's area.
pub fn insert(w: &mut Writer<'_>, p: WorkAt, b: u8)
    requires { p.0 ≤ w.old.at.0 }
    ensures { Inserts (area w.old) p.0 w.old.at.0 (area w.new) w.new.at.0 (sign b) × Kept w.old w.new }
{
    let end = w.end;
    w.at = insert_at(&mut w.bytes[..end], &mut w.numbers[..end], p, w.at, b);
}
