// The scanner: one part of an attribution, from a place on.
ghost use Rattle.std.specs.Prelude.{◌≡◌, false, ◌+◌, ◌≤◌, ◌<◌, length, drop, get_or};
ghost use Rattle.text.specs.Ascii.{to_first};
ghost use Rattle.attribution_parts.specs.Parts.{is_space, is_quote, in_key, starts_key};
ghost use Rattle.attribution_reading.specs.Places.{bytes, RunAt, ValueAt, PartAt, Stands, Scanned};

use text::scan::first_from;

// Bytes that stand together: from `from`, `size` of them. None of them is as nothing found: both are empty in document 01's rule.
#[derive(Clone, Copy)]
pub struct Extent {
    pub from: usize,
    pub size: usize,
}

impl Extent {
    // Its bytes in s.
    pub fn of<'a>(self, s: &'a [u8]) -> &'a [u8]
        requires { self.from + self.size ≤ length s.now }
        ensures words { result.now ≡ bytes s.now self.from self.size }
        ensures size { length result.now ≡ self.size }
    {
        &s[self.from..self.from + self.size]
    }
}

// Where a value stands; `next` is the place behind it.
#[derive(Clone, Copy)]
pub struct Value {
    pub words: Extent,
    pub next: usize,
}

// Where a part stands: its key (empty: a text, quoted where its value does not begin at `key.from`), and its value.
#[derive(Clone, Copy)]
pub struct Place {
    pub key: Extent,
    pub value: Extent,
    pub next: usize,
}

fn is_space(b: u8) -> bool
    ensures { result ≡ is_space b }
{
    matches!(b, b' ' | b'\t' | b'\n' | b'\r' | b'\x0c')
}

pub fn is_quote(b: u8) -> bool
    ensures { result ≡ is_quote b }
{
    matches!(b, b'"' | b'\'')
}

fn starts_key(b: u8) -> bool
    ensures { result ≡ starts_key b }
{
    b.is_ascii_alphabetic() || b == b'_'
}

fn in_key(b: u8) -> bool
    ensures { result ≡ in_key b }
{
    starts_key(b) || b.is_ascii_digit() || b == b'-'
}

// The run at `at`, of which no byte before `past` is a space.
fn run_value(s: &[u8], at: usize, past: usize) -> Value
    requires { (at ≤ past) × ((past ≤ length s.now) × (past + to_first is_space (drop past s.now) ≡ at + to_first is_space (drop at s.now))) }
    ensures { RunAt s.now at result }
{
    let end = first_from(s, past, |b| is_space(b));
    Value {
        words: Extent {
            from: at,
            size: end - at,
        },
        next: end,
    }
}

// The value at `at`: in quotes, else up to the next space.
fn value_at(s: &[u8], at: usize) -> Value
    requires { at ≤ length s.now }
    ensures { ValueAt s.now at result }
{
    if at < s.len() && is_quote(s[at]) {
        let start = at + 1;
        let quote = s[at];
        let close = first_from(s, start, |b| b == quote);
        if close < s.len() {
            return Value {
                words: Extent {
                    from: start,
                    size: close - start,
                },
                next: close + 1,
            };
        }
    }
    run_value(s, at, at)
}

// The part at `at`, where a byte stands that is no space.
pub fn part_at(s: &[u8], at: usize) -> Place
    requires { at < length s.now }
    ensures { PartAt s.now at result }
{
    let mut key = Extent { from: at, size: 0 };
    if starts_key(s[at]) {
        let end = first_from(s, at, |b| !in_key(b));
        let v = if end < s.len() && s[end] == b'=' {
            key.size = end - at;
            value_at(s, end + 1)
        } else {
            run_value(s, at, end)
        };
        return Place {
            key,
            value: v.words,
            next: v.next,
        };
    }
    let v = value_at(s, at);
    Place {
        key,
        value: v.words,
        next: v.next,
    }
}

// The place of the first part: where a byte stands that is no space, or the end.
pub fn first_at(s: &[u8]) -> usize
    ensures { Stands s.now 0 result }
{
    first_from(s, 0, |b| !is_space(b))
}

// The part at `at`, and where the next one begins.
pub fn scan_at(s: &[u8], at: usize) -> Place
    requires { (at < length s.now) × (is_space (get_or s.now at 0) ≡ false) }
    ensures { Scanned s.now at result }
{
    let p = part_at(s, at);
    Place {
        next: first_from(s, p.next, |b| !is_space(b)),
        ..p
    }
}
