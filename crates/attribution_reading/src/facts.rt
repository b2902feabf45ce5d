// What an attribution says: its first usable fields, its leading id, and the id of its caption.
ghost use Rattle.std.specs.Prelude.{◌≡◌, cond, ◌+◌, ◌≤◌, eqb, ltb, length};
ghost use Rattle.text.specs.Ascii.{is, to_first, digits};
ghost use Rattle.attribution_parts.specs.declared.Kind.TheVariants.{Name};
ghost use Rattle.attribution_parts.specs.Attribution.{is_kind, is_usable, counts, is_leading};
ghost use Rattle.attribution_reading.specs.Places.{part_of, Inside};
ghost use Rattle.attribution_reading.specs.Reads.{Tells, FieldsStep, FieldsAt, FoundAll, LeadAt, id_by, IdAt};

use crate::reader::{Reader, read_part};
use crate::scan::{Extent, Place, first_at, is_quote};
use attribution_parts::Kind;
use day::all_digits;
use text::PostAt;
use text::scan::next_byte;

// A field's value (empty: there is no such field), and the field's index.
#[derive(Clone, Copy)]
pub struct Field {
    pub value: Extent,
    pub index: usize,
}

impl Field {
    const NONE: Field = Field {
        value: Extent { from: 0, size: 0 },
        index: 0,
    };

    // This field, else the one that is found behind it.
    fn or(self, found: Field) -> Field
        ensures { result ≡ cond (eqb self.value.size 0) found self }
    {
        if self.value.size == 0 { found } else { self }
    }
}

// The first usable field of each kind.
#[derive(Clone, Copy)]
pub struct Fields {
    pub name: Field,
    pub post: Field,
    pub id: Field,
    pub date: Field,
    pub time: Field,
}

// A leading id (empty: there is none); how many parts it takes, and where the next one begins.
#[derive(Clone, Copy)]
pub struct Lead {
    pub id: Extent,
    pub count: usize,
    pub next: usize,
}

// What is read off an attribution: the first usable fields, the leading id, and the caption's id (empty: there is none).
#[derive(Clone, Copy)]
pub struct Facts {
    pub fields: Fields,
    pub lead: Lead,
    pub id: Extent,
}

// One or more digits.
fn is_digits(s: &[u8]) -> bool
    ensures { result ≡ digits s.now }
{
    !s.is_empty() && all_digits(s)
}

// The kind of a key.
fn kind_of_key(key: &[u8]) -> Option<Kind>
    ensures { Tells (λ k. is_kind k key.now) result }
{
    if key.eq_ignore_ascii_case(b"post_id") {
        Some(Kind::PostId)
    } else if key.eq_ignore_ascii_case(b"id") {
        Some(Kind::Id)
    } else if key.eq_ignore_ascii_case(b"date") {
        Some(Kind::Date)
    } else if key.eq_ignore_ascii_case(b"time") {
        Some(Kind::Time)
    } else if key.eq_ignore_ascii_case(b"name") || key.eq_ignore_ascii_case(b"author") {
        Some(Kind::Name)
    } else {
        None
    }
}

fn is_usable(kind: Kind, value: &[u8]) -> bool
    ensures { result ≡ is_usable kind value.now }
{
    match kind {
        Kind::PostId | Kind::Id => is_digits(value),
        Kind::Name | Kind::Date | Kind::Time => !value.is_empty(),
    }
}

// The kind that a part is a usable field of.
fn kind_of_part(s: &[u8], p: Place) -> Option<Kind>
    requires { Inside s.now p }
    ensures { Tells (λ k. counts k (part_of s.now p)) result }
{
    if p.key.size == 0 {
        return None;
    }
    let kind = kind_of_key(p.key.of(s))?;
    if is_usable(kind, p.value.of(s)) {
        Some(kind)
    } else {
        None
    }
}

// Whether a part is a usable name field.
pub fn is_name(s: &[u8], p: Place) -> bool
    requires { Inside s.now p }
    ensures { result ≡ counts Name (part_of s.now p) }
{
    matches!(kind_of_part(s, p), Some(Kind::Name))
}

// Whether a `=` stands in an attribution: without one it has no fields.
pub fn has_equals(s: &[u8]) -> bool
    ensures { result ≡ ltb (to_first (is "=") s.now) (length s.now) }
{
    next_byte(s, PostAt(0), b'=').0 < s.len()
}

// The first usable fields, and then the part behind them at the place p, which has the index i.
fn with_field(s: &[u8], fields: Fields, p: Place, i: usize) -> Fields
    requires { Inside s.now p }
    ensures { FieldsStep s.now fields p i result }
{
    let here = Field {
        value: p.value,
        index: i,
    };
    match kind_of_part(s, p) {
        Some(Kind::Name) => Fields {
            name: fields.name.or(here),
            ..fields
        },
        Some(Kind::PostId) => Fields {
            post: fields.post.or(here),
            ..fields
        },
        Some(Kind::Id) => Fields {
            id: fields.id.or(here),
            ..fields
        },
        Some(Kind::Date) => Fields {
            date: fields.date.or(here),
            ..fields
        },
        Some(Kind::Time) => Fields {
            time: fields.time.or(here),
            ..fields
        },
        None => fields,
    }
}

// Whether a part is a leading id, where it is the first one.
fn is_leading(s: &[u8], p: Place) -> bool
    requires { p.value.from + p.value.size ≤ length s.now }
    ensures { result ≡ is_leading (part_of s.now p) }
{
    p.key.size == 0 && p.value.from != p.key.from && is_digits(p.value.of(s))
}

// Only a part that begins with a quote can be one.
pub fn leading_id(s: &[u8]) -> Lead
    ensures { LeadAt s.now result }
{
    let at = first_at(s);
    if at < s.len() && is_quote(s[at]) {
        let p = read_part(s, at);
        if is_leading(s, p) {
            return Lead {
                id: p.value,
                count: 1,
                next: p.next,
            };
        }
    }
    Lead {
        id: Extent { from: 0, size: 0 },
        count: 0,
        next: at,
    }
}

// The first usable fields, and then all parts behind them, from the one with the index `first` on, which begins at `start`. One reader goes over
// them.
fn with_parts(s: &[u8], found: Fields, first: usize, start: usize) -> Fields
    requires { FoundAll s.now first start found }
    ensures { FieldsAt s.now result }
{
    let mut i = first;
    let mut fields = found;
    let mut reader = Reader::new(s, start);
    // A while: parts differ in size.
    while reader.next < s.len() {
        fields = with_field(s, fields, reader.next_part(), i);
        i += 1;
    }
    fields
}

// The first usable fields, which stand behind the leading id; without a `=` there are none.
fn read_fields(s: &[u8], lead: Lead) -> Fields
    requires { LeadAt s.now lead }
    ensures { FieldsAt s.now result }
{
    let none = Fields {
        name: Field::NONE,
        post: Field::NONE,
        id: Field::NONE,
        date: Field::NONE,
        time: Field::NONE,
    };
    if has_equals(s) {
        with_parts(s, none, lead.count, lead.next)
    } else {
        none
    }
}

// The caption's id: in a post_id field, else in an id field, else the leading id.
fn id_of(fields: Fields, lead: Lead) -> Extent
    ensures { result ≡ id_by fields lead }
{
    if fields.post.value.size != 0 {
        fields.post.value
    } else if fields.id.value.size != 0 {
        fields.id.value
    } else {
        lead.id
    }
}

// What an attribution says.
pub fn read_facts(s: &[u8]) -> Facts
    ensures { FieldsAt s.now result.fields × (LeadAt s.now result.lead × IdAt s.now result.id) }
{
    let lead = leading_id(s);
    let fields = read_fields(s, lead);
    Facts {
        fields,
        lead,
        id: id_of(fields, lead),
    }
}
