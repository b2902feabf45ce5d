// The caption of an attribution: name, date and id. The attribution stands in the pair of slices that the caption is written into, with its joined
// texts; both before or behind the writer's area.
ghost use Rattle.std.specs.Prelude.{◌≡◌, ℕ, true, not, ◌&&◌, eqb, List, [], ◌∷◌, ◌++◌, ◌+◌, ◌-◌, ◌≤◌, length};
ghost use Rattle.text.specs.Ascii.{ascii};
ghost use Rattle.text.specs.Cells.{written};
ghost use Rattle.text.specs.Writes.{Apart, cut};
ghost use Rattle.text.specs.Writers.{Wrote};
ghost use Rattle.day.specs.Day.{is_seconds, day_of};
ghost use Rattle.attribution_parts.specs.declared.Kind.TheVariants.{Date, Time};
ghost use Rattle.attribution_parts.specs.Parts.{parts};
ghost use Rattle.attribution_parts.specs.Attribution.{is_day, within, caption, date as dateOf};
ghost use Rattle.attribution_reading.specs.Places.{bytes};
ghost use Rattle.attribution_reading.specs.Reads.{FieldAt, IdAt};
ghost use Rattle.attribution_losses.specs.Captions.{gap, named};
ghost use Rattle.attribution_losses.specs.Lists.{Told};
ghost use Rattle.attribution.specs.Spoken.{said, date_and_id, Spoken, NameAt};

use attribution_losses::loss::is_day;
use attribution_reading::facts::{Field, Fields, read_facts};
use attribution_reading::scan::Extent;
use day::write_day;
use text::WorkAt;
use text::writer::Writer;

// Where an attribution stands, and its joined texts.
#[derive(Clone, Copy)]
pub struct Words {
    pub from: WorkAt,
    pub to: WorkAt,
    pub joined: WorkAt,
    pub past: WorkAt,
}

// The name: where there is a name field its value, a part of the attribution; else the joined texts.
fn name<'a>(attribution: &'a [u8], joined: &'a [u8], value: Extent) -> &'a [u8]
    requires { value.from + value.size ≤ length attribution.now }
    ensures { result.now ≡ named attribution.now joined.now value.from value.size }
{
    if value.size == 0 {
        return joined;
    }
    value.of(attribution)
}

// Where the name stands: as long as the part that `name` hands out, which can't be held while the slice is written.
fn name_at(source: &[u8], words: Words, value: Extent) -> Extent
    requires { ((words.from.0 ≤ words.to.0) × ((words.to.0 ≤ length source.now) × ((words.joined.0 ≤ words.past.0) × (words.past.0 ≤ length source.now)))) × (value.from + value.size ≤ words.to.0 - words.from.0) }
    ensures { NameAt source.now words value.from value.size result.from (result.from + result.size) }
{
    let attribution = &source[words.from.0..words.to.0];
    let joined = &source[words.joined.0..words.past.0];
    let size = name(attribution, joined, value).len();
    if value.size == 0 {
        return Extent {
            from: words.joined.0,
            size,
        };
    }
    Extent {
        from: words.from.0 + value.from,
        size,
    }
}

// Appends a space between two pieces, where neither is empty.
fn put_gap(w: &mut Writer<'_>, left: bool, right: bool)
    ensures { Wrote w.old w.new (written (gap left right)) }
{
    if left & right {
        w.put_space();
    }
}

// Appends a text in brackets.
fn put_bracketed(w: &mut Writer<'_>, text: &[u8])
    ensures { Wrote w.old w.new (written (ascii "(" ++ (text.now ++ ascii ")"))) }
{
    w.put_sign(b'(');
    w.put_text(text);
    w.put_sign(b')');
}

// Appends bytes that stand outside of the area in brackets.
fn put_bracketed_within(w: &mut Writer<'_>, text: Extent)
    requires { (text.from + text.size ≤ length w.old.bytes.now) × Apart text.from (text.from + text.size) w.old.at.0 w.old.end }
    ensures { Wrote w.old w.new (written (ascii "(" ++ (cut text.from (text.from + text.size) w.old.bytes.now ++ ascii ")"))) }
{
    w.put_sign(b'(');
    w.put_within(text.from, text.from + text.size);
    w.put_sign(b')');
}

// Appends two such texts in brackets, a space between them.
fn put_both(w: &mut Writer<'_>, one: Extent, two: Extent)
    requires { ((one.from + one.size ≤ length w.old.bytes.now) × Apart one.from (one.from + one.size) w.old.at.0 w.old.end) × ((two.from + two.size ≤ length w.old.bytes.now) × Apart two.from (two.from + two.size) w.old.at.0 w.old.end) }
    ensures { Wrote w.old w.new (written (ascii "(" ++ ((cut one.from (one.from + one.size) w.old.bytes.now ++ (32 ∷ cut two.from (two.from + two.size) w.old.bytes.now)) ++ ascii ")"))) }
{
    w.put_sign(b'(');
    w.put_within(one.from, one.from + one.size);
    w.put_space();
    w.put_within(two.from, two.from + two.size);
    w.put_sign(b')');
}

// Appends the day of some seconds in brackets.
fn put_day(w: &mut Writer<'_>, seconds: Extent)
    requires { (seconds.from + seconds.size ≤ length w.old.bytes.now) × (is_seconds (cut seconds.from (seconds.from + seconds.size) w.old.bytes.now) ≡ true) }
    ensures { Wrote w.old w.new (written (ascii "(" ++ (day_of (cut seconds.from (seconds.from + seconds.size) w.old.bytes.now) ++ ascii ")"))) }
{
    let mut ten = [0u8; 10];
    write_day(
        &w.source()[seconds.from..seconds.from + seconds.size],
        &mut ten,
    );
    put_bracketed(w, &ten);
}

// Appends the date of the caption.
fn put_date(w: &mut Writer<'_>, words: Words, date: Field, time: Field, day: bool)
    requires { Spoken w.old.bytes.now w.old.at.0 w.old.end words × (FieldAt (said words w.old.bytes.now) Date date × (FieldAt (said words w.old.bytes.now) Time time × (day ≡ is_day (parts 0 (said words w.old.bytes.now))))) }
    ensures { Wrote w.old w.new (written (within (ascii "(") (dateOf (parts 0 (said words w.old.bytes.now))) (ascii ")"))) }
{
    let d = Extent {
        from: words.from.0 + date.value.from,
        size: date.value.size,
    };
    let t = Extent {
        from: words.from.0 + time.value.from,
        size: time.value.size,
    };
    if day {
        put_day(w, t);
    } else if date.value.size == 0 {
        if time.value.size != 0 {
            put_bracketed_within(w, t);
        }
    } else if time.value.size == 0 {
        put_bracketed_within(w, d);
    } else {
        put_both(w, d, t);
    }
}

// Appends the id of the caption.
fn put_id(w: &mut Writer<'_>, words: Words, id: Extent)
    requires { Spoken w.old.bytes.now w.old.at.0 w.old.end words × (id.from + id.size ≤ words.to.0 - words.from.0) }
    ensures { Wrote w.old w.new (written (within (ascii "#") (bytes (said words w.old.bytes.now) id.from id.size) [])) }
{
    if id.size == 0 {
        return;
    }
    let i = words.from.0 + id.from;
    w.put_sign(b'#');
    w.put_within(i, i + id.size);
}

fn is_dated(date: Field, time: Field) -> bool
    ensures { result ≡ not (eqb date.value.size 0 && eqb time.value.size 0) }
{
    (date.value.size != 0) | (time.value.size != 0)
}

// Appends the date and the id.
fn put_rest(w: &mut Writer<'_>, words: Words, fields: Fields, day: bool, id: Extent)
    requires { Spoken w.old.bytes.now w.old.at.0 w.old.end words × (Told (said words w.old.bytes.now) fields day × IdAt (said words w.old.bytes.now) id) }
    ensures { Wrote w.old w.new (written (date_and_id (parts 0 (said words w.old.bytes.now)))) }
{
    put_date(w, words, fields.date, fields.time, day);
    put_gap(w, is_dated(fields.date, fields.time), 0 < id.size);
    put_id(w, words, id);
}

fn put_pieces(w: &mut Writer<'_>, words: Words, fields: Fields, day: bool, id: Extent)
    requires { Spoken w.old.bytes.now w.old.at.0 w.old.end words × (Told (said words w.old.bytes.now) fields day × IdAt (said words w.old.bytes.now) id) }
    ensures { Wrote w.old w.new (written (caption (said words w.old.bytes.now))) }
{
    let name = name_at(w.source(), words, fields.name.value);
    let more = is_dated(fields.date, fields.time) | (0 < id.size);
    w.put_within(name.from, name.from + name.size);
    put_gap(w, 0 < name.size, more);
    put_rest(w, words, fields, day, id);
}

// Appends the caption of an attribution.
pub fn put_caption(w: &mut Writer<'_>, words: Words)
    requires { Spoken w.old.bytes.now w.old.at.0 w.old.end words }
    ensures { Wrote w.old w.new (written (caption (said words w.old.bytes.now))) }
{
    let text = &w.source()[words.from.0..words.to.0];
    let facts = read_facts(text);
    let day = is_day(text, facts.fields.time);
    put_pieces(w, words, facts.fields, day, facts.id);
}
