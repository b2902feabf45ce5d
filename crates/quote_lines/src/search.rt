// The quote tags of the original text, and the line of a converted quote.
ghost use Rattle.std.specs.Prelude.{◌≡◌, ℕ, ◌+◌, ◌-◌, ◌*◌, ◌≤◌, ◌<◌, length, take, drop, MatchOption};
ghost use Rattle.text.specs.Bounds.{text_most, out_most};
ghost use Rattle.quote_tags.specs.Tags.{NextBracket};
ghost use Rattle.quote_lines.specs.Lines.{bare, tags, same, find, place, next_after, line_at};
ghost use Rattle.quote_lines.specs.Tables.{words_at, WordsIn, Weighed, TagAt, Table, LinesRead, line_in, Tabled, Untagged, NextOpener, lines_behind, PastBackslashes};

use crate::weights::{bare_weight, next_number};
use quote_tags::mask::mask_all;
use quote_tags::tag::{Kind, next_tag, tag_at};
use text::PostAt;
use text::scan::{first_from, next_bracket};
use text::source::set_source;

// A place in the text, the place of the next `]`, the line there, and how many tags stand in the table.
#[derive(Clone, Copy)]
pub struct Reading {
    pub at: PostAt,
    pub bracket: PostAt,
    pub line: usize,
    pub count: usize,
}

// The line of a quote, and the tag that the next search begins at.
#[derive(Clone, Copy)]
pub struct Found {
    pub line: u32,
    pub next: usize,
}

// The first place from a place on with another byte than a backslash, or the end.
fn past_backslashes(s: &[u8], at: usize) -> usize
    requires { at ≤ length s.now }
    ensures { PastBackslashes s.now at result }
{
    first_from(s, at, |b| b != b'\\')
}

// Whether two texts are the same without their backslashes. A while: both places move, by different steps.
fn same_bare(s: &[u8], a: &[u8]) -> bool
    ensures { result ≡ same (bare s.now) (bare a.now) }
{
    let mut i = past_backslashes(s, 0);
    let mut j = past_backslashes(a, 0);
    while i < s.len() {
        if a.len() <= j || s[i] != a[j] {
            return false;
        }
        i = past_backslashes(s, i + 1);
        j = past_backslashes(a, j + 1);
    }
    a.len() <= j
}

// How many line feeds stand from a place up to another, at most 128 bytes. The count is a byte, so that 16 bytes are counted at once where the
// machine can.
fn feeds_in(s: &[u8], a: usize, e: usize) -> u8
    requires { (a ≤ e) × ((e ≤ length s.now) × (e ≤ a + 128)) }
    ensures { ((line : ℕ) → line + result ≡ lines_behind line (take (e - a) (drop a s.now))) × (result ≤ e - a) }
{
    let mut feeds = 0;
    for i in a..e {
        feeds += u8::from(s[i] == b'\n');
    }
    feeds
}

// The line behind the text from a place up to another. A while: the last step may be shorter.
fn line_behind(s: &[u8], a: usize, e: usize, line: usize) -> usize
    requires { (a ≤ e) × ((e ≤ length s.now) × (line + (e - a) ≤ 1000000)) }
    ensures { (result ≡ lines_behind line (take (e - a) (drop a s.now))) × (result ≤ line + (e - a)) }
{
    let mut i = a;
    let mut feeds: usize = 0;
    while i < e {
        let next = i + (e - i).min(128);
        feeds += usize::from(feeds_in(s, i, next));
        i = next;
    }
    line + feeds
}

// How many bytes the attribution of an opener of k bytes has.
pub fn attribution_size(k: usize) -> usize
    ensures { result ≡ k - 8 }
{
    k.saturating_sub(8)
}

// Writes the numbers of a tag in this line, whose attribution stands from a on.
fn put_tag(s: &[u8], numbers: &mut [u32], p: usize, line: usize, a: usize, size: usize)
    requires { ((a + size ≤ length s.now) × (length s.now ≤ text_most)) × ((line ≤ 1000000) × (p + 3 ≤ length numbers.old)) }
    ensures { TagAt s.now numbers.new p line (take size (drop a s.now)) × (take p numbers.new ≡ take p numbers.old) }
{
    numbers[p] = line as u32;
    numbers[p + 1] = a as u32;
    numbers[p + 2] = size as u32;
}

// A quote opener, its size and the place of its `]`.
#[derive(Clone, Copy)]
pub struct Opener {
    pub at: PostAt,
    pub bracket: PostAt,
    pub size: usize,
}

// The first opener from a place on, if there is one. A while: it goes from one place where a tag may begin to the next.
fn next_opener(s: &[u8], at: PostAt, known: PostAt) -> Option<Opener>
    requires { (at.0 ≤ length s.now) × NextBracket s.now at.0 known.0 }
    ensures { MatchOption result (Untagged s.now at.0 (length s.now)) (λ o. NextOpener s.now at.0 o.at.0 o.bracket.0 o.size × (o.size ≡ 0 → ⊥)) }
{
    let mut i = at.0;
    let mut bracket = known;
    while i < s.len() {
        let at = next_tag(s, PostAt(i));
        let tag = tag_at(s, at, bracket);
        bracket = tag.bracket;
        if let Kind::Opener(size) = tag.kind {
            return Some(Opener { at, bracket, size });
        }
        if s.len() <= at.0 {
            return None;
        }
        i = at.0 + 1;
    }
    None
}

// Reads the next tag from a place on.
fn read_tag(s: &[u8], numbers: &mut [u32], t: usize, from: Reading) -> Reading
    requires { ((from.at.0 < length s.now) × (length s.now ≤ text_most)) × ((t + length s.now ≤ length numbers.old) × (NextBracket s.now from.at.0 from.bracket.0 × Tabled s.now numbers.old t from.at.0 from.line from.count)) }
    ensures { ((from.at.0 < result.at.0) × (result.at.0 ≤ length s.now)) × ((take t numbers.new ≡ take t numbers.old) × (NextBracket s.now result.at.0 result.bracket.0 × Tabled s.now numbers.new t result.at.0 result.line result.count)) }
{
    let Some(opener) = next_opener(s, from.at, from.bracket) else {
        return Reading {
            at: PostAt(s.len()),
            ..from
        };
    };
    let i = opener.at.0;
    let line = line_behind(s, from.at.0, i, from.line);
    let size = attribution_size(opener.size);
    put_tag(s, numbers, t + 3 * from.count, line, i + 7, size);
    let next = i + opener.size;
    Reading {
        at: PostAt(next),
        bracket: opener.bracket,
        line: line_behind(s, i, next, line),
        count: from.count + 1,
    }
}

// The attribution of the tag whose numbers stand at p.
fn words_at<'a>(s: &'a [u8], numbers: &[u32], p: usize) -> &'a [u8]
    requires { (p + 3 ≤ length numbers.now) × WordsIn s.now numbers.now p }
    ensures { (result.now ≡ words_at s.now numbers.now p) × (length result.now ≤ length s.now) }
{
    let a = numbers[p + 1] as usize;
    let e = a + numbers[p + 2] as usize;
    &s[a..e]
}

// Writes behind the numbers of the tags what their attributions weigh.
fn put_weights(s: &[u8], numbers: &mut [u32], t: usize, count: usize)
    requires { ((length s.now ≤ text_most) × (t + 4 * count ≤ length numbers.old)) × ((k : ℕ) → k < count → WordsIn s.now numbers.old (t + 3 * k)) }
    ensures { Weighed s.now numbers.new t count × (take (t + 3 * count) numbers.new ≡ take (t + 3 * count) numbers.old) }
{
    for i in 0..count {
        let words = words_at(s, numbers, t + 3 * i);
        numbers[t + 3 * count + i] = bare_weight(words) as u32;
    }
}

// Writes the table of the quote tags of a text from place t of the numbers on, and returns how many there are. A while: tags have different sizes.
pub fn read_tags(s: &[u8], numbers: &mut [u32], t: usize) -> usize
    requires { (length s.now ≤ text_most) × (t + length s.now ≤ length numbers.old) }
    ensures { Table s.now numbers.new t result × (take t numbers.new ≡ take t numbers.old) }
{
    let mut st = Reading {
        at: PostAt(0),
        bracket: next_bracket(s, PostAt(0)),
        line: 1,
        count: 0,
    };
    while st.at.0 < s.len() {
        st = read_tag(s, numbers, t, st);
    }
    put_weights(s, numbers, t, st.count);
    st.count
}

// How many bytes a masked text has, and how many tags its table.
#[derive(Clone, Copy)]
pub struct Lines {
    pub size: usize,
    pub count: usize,
}

// Masks a text at the front of a slice, and writes the table of its quote tags at the front of the numbers.
pub fn read_lines(text: &[u8], work: &mut [u8], numbers: &mut [u32]) -> Lines
    requires { (length text.now ≤ text_most) × ((length text.now ≤ length work.old) × (length text.now ≤ length numbers.old)) }
    ensures { LinesRead text.now work.new numbers.new result.size result.count }
{
    set_source(text, work);
    let size = mask_all(work, text.len());
    let count = read_tags(&work[..size], numbers, 0);
    Lines { size, count }
}

// The quote tags of a text, as its table from place t of the numbers on has them.
#[derive(Clone, Copy)]
pub struct Tags<'a> {
    pub text: &'a [u8],
    pub numbers: &'a [u32],
    pub t: usize,
    pub count: usize,
    pub ghost table: { Table text.now numbers.now t count },
}

impl<'a> Tags<'a> {
    // The attribution of tag i.
    fn words(self, i: usize) -> &'a [u8]
        requires { i < self.count }
        ensures { (result.now ≡ words_at self.entry.text.now self.entry.numbers.now (self.entry.t + 3 * i)) × (length result.now ≤ length self.entry.text.now) }
    {
        words_at(self.text, self.numbers, self.t + 3 * i)
    }

    // The first tag from `next` on with this attribution; where there is none, the number of tags or, if that is greater, `next`. A while: it goes
    // from one tag of the weight to the next.
    fn find(self, next: usize, attribution: &[u8]) -> usize
        requires { length attribution.now ≤ out_most }
        ensures { result ≡ next + find attribution.now (drop next (tags 1 0 self.entry.text.now)) }
    {
        // A quote that marks left as it was has just the attribution of tag `next`.
        if next < self.count && self.words(next) == attribution {
            return next;
        }
        let weight = bare_weight(attribution);
        let w = self.t + 3 * self.count;
        let weights = &self.numbers[w..w + self.count];
        let mut i = next;
        while i < self.count {
            i = next_number(weights, i, weight);
            if self.count <= i || same_bare(self.words(i), attribution) {
                return i;
            }
            i += 1;
        }
        i
    }

    // The line of tag `next`, at most the last; 1 if there are no tags.
    fn line(self, next: usize) -> u32
        ensures { result ≡ line_in self.entry.numbers.now self.entry.t self.entry.count next }
    {
        if self.count == 0 {
            1
        } else {
            self.numbers[self.t + 3 * next.min(self.count - 1)]
        }
    }

    // The line of a quote with this attribution, searched from tag `next` on.
    pub fn line_of(self, next: usize, attribution: &[u8]) -> Found
        requires { length attribution.now ≤ out_most }
        ensures { (result.line ≡ line_at (tags 1 0 self.entry.text.now) (place (tags 1 0 self.entry.text.now) next attribution.now)) × (result.next ≡ next_after (tags 1 0 self.entry.text.now) next attribution.now) }
    {
        let i = self.find(next, attribution);
        if i < self.count {
            Found {
                line: self.numbers[self.t + 3 * i],
                next: i + 1,
            }
        } else {
            Found {
                line: self.line(next),
                next,
            }
        }
    }
}
