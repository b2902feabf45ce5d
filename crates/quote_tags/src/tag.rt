// Reading tags. Every `]` is looked for once: the place of the next one is kept.
ghost use Rattle.std.specs.Prelude.{◌≡◌, false, ℕ, ◌+◌, ◌≤◌, ◌<◌, length, drop, get_or};
ghost use Rattle.quote_tags.specs.declared.tag.Kind.TheVariants.{Plain};
ghost use Rattle.text.specs.Ascii.{to_bracket};
ghost use Rattle.quote_tags.specs.Tags.{NextBracket, up_to_bracket, begins_any, openers, opener_size, closer_size, sized, tag_of, opened, closed, NoTag, NoQ};

use text::PostAt;
use text::scan::{begins_at, byte_at, next_bracket, next_byte, small_of};

// The place of the first `]` from a place on, or the end, where `known` is that place or lies before.
pub fn bracket_from(s: &[u8], at: PostAt, known: PostAt) -> PostAt
    requires { (at.0 ≤ length s.now) × NextBracket s.now at.0 known.0 }
    ensures { result.0 ≡ at.0 + to_bracket (drop at.0 s.now) }
{
    if at.0 <= known.0 {
        known
    } else {
        next_bracket(s, at)
    }
}

// How many bytes there are from a place on up to and with the `]`, if there is one.
pub fn up_to_bracket(s: &[u8], at: PostAt, bracket: PostAt) -> Option<usize>
    requires { (at.0 ≤ length s.now) × (bracket.0 ≡ at.0 + to_bracket (drop at.0 s.now)) }
    ensures { result ≡ sized (up_to_bracket (drop at.0 s.now)) }
{
    if bracket.0 < s.len() {
        Some(bracket.0 - at.0 + 1)
    } else {
        None
    }
}

// Whether the word of a quote opener stands at a place.
pub fn opens_quote(s: &[u8], at: PostAt) -> bool
    requires { at.0 ≤ length s.now }
    ensures { result ≡ begins_any openers (drop at.0 s.now) }
{
    let b = byte_at(s, at.0 + 6);
    small_of(byte_at(s, at.0 + 1)) == b'q'
        && begins_at(s, at, b"[quote")
        && ((b == b']') | (b == b'=') | (b == b' '))
}

// Whether a quote tag may begin at i: with `[q`, or `[/q`.
fn may_begin(s: &[u8], i: usize) -> bool
    requires { i < length s.now }
    ensures { result ≡ false → NoTag (drop i s.now) }
{
    let b = byte_at(s, i + 1);
    let c = byte_at(s, i + 2);
    (s[i] == b'[') & ((b == b'q') | (b == b'Q') | ((b == b'/') & ((c == b'q') | (c == b'Q'))))
}

// The first place from `at` up to e where a quote tag may begin, or e. A while: it goes from one `[` to the next.
fn tag_before(s: &[u8], at: usize, e: usize) -> usize
    requires { (at ≤ e) × (e ≤ length s.now) }
    ensures { ((at ≤ result) × (result ≤ e)) × ((j : ℕ) → at ≤ j → j < result → NoTag (drop j s.now)) }
{
    let mut i = at;
    while i < e {
        let k = next_byte(&s[..e], PostAt(i), b'[').0;
        if e <= k || may_begin(s, k) {
            return k;
        }
        i = k + 1;
    }
    i
}

// Whether a q stands among the 16 bytes from i on: one comparison of all 16 where the machine has it.
fn q_in_16(s: &[u8], i: usize) -> bool
    requires { i + 16 ≤ length s.now }
    ensures { result ≡ false → (j : ℕ) → i ≤ j → j < i + 16 → NoQ (get_or s.now j 0) }
{
    let mut stands = false;
    for k in i..i + 16 {
        stands |= (s[k] == b'q') | (s[k] == b'Q');
    }
    stands
}

// The place of a block of 16 with a q, or of the rest that is shorter: no q stands between. A while: no range's step may leave a rest.
fn past_16s(s: &[u8], at: usize) -> usize
    requires { at ≤ length s.now }
    ensures { ((at ≤ result) × (result ≤ length s.now)) × ((j : ℕ) → at ≤ j → j < result → NoQ (get_or s.now j 0)) }
{
    let mut i = at;
    while 16 <= s.len() - i && !q_in_16(s, i) {
        i += 16;
    }
    i
}

// The end of the block of 16 from j on, or of the text.
fn block_end(s: &[u8], j: usize) -> usize
    requires { j ≤ length s.now }
    ensures { ((j ≤ result) × (result ≤ length s.now)) × (j < length s.now → j < result) }
{
    j + (s.len() - j).min(16)
}

// Two places before j, but not before i.
fn two_back(i: usize, j: usize) -> usize
    requires { i ≤ j }
    ensures { ((i ≤ result) × (result ≤ j)) × (i < result → result + 2 ≤ j) }
{
    i.max(j.saturating_sub(2))
}

// The first place from a place on where a quote tag may begin, or the end. A tag's q is its second byte or its third, and a q is rare: so
// a `[` is looked for only from two places before a block with a q on. A while: it goes from one block with a q to the next.
pub fn next_tag(s: &[u8], at: PostAt) -> PostAt
    requires { at.0 ≤ length s.now }
    ensures { ((at.0 ≤ result.0) × (result.0 ≤ length s.now)) × ((j : ℕ) → at.0 ≤ j → j < result.0 → NoTag (drop j s.now)) }
{
    let mut i = at.0;
    while i < s.len() {
        let j = past_16s(s, i);
        let e = block_end(s, j);
        let k = tag_before(s, two_back(i, j), e);
        if k < e {
            return PostAt(k);
        }
        i = e;
    }
    PostAt(i)
}

// How many bytes the quote opener at a place has, if one is there.
pub fn opener_size(s: &[u8], at: PostAt, bracket: PostAt) -> Option<usize>
    requires { (at.0 ≤ length s.now) × (bracket.0 ≡ at.0 + to_bracket (drop at.0 s.now)) }
    ensures { result ≡ sized (opener_size (drop at.0 s.now)) }
{
    if opens_quote(s, at) {
        up_to_bracket(s, at, bracket)
    } else {
        None
    }
}

// What stands at a place: a quote tag of so many bytes, or none.
#[derive(Clone, Copy)]
pub enum Kind {
    Opener(usize),
    Closer(usize),
    Plain,
}

// The quote tag at a place, and the place of the next `]`, which is looked for only where a tag's word stands.
#[derive(Clone, Copy)]
pub struct Tag {
    pub kind: Kind,
    pub bracket: PostAt,
}

pub fn tag_at(s: &[u8], at: PostAt, known: PostAt) -> Tag
    requires { (at.0 ≤ length s.now) × NextBracket s.now at.0 known.0 }
    ensures next { NextBracket s.now at.0 result.bracket.0 × ((result.kind ≡ Plain → ⊥) → result.bracket.0 ≡ at.0 + to_bracket (drop at.0 s.now)) }
    ensures kind { result.kind ≡ tag_of (opener_size (drop at.0 s.now)) (closer_size (drop at.0 s.now)) }
    ensures sizes { (opener_size (drop at.0 s.now) ≡ opened result.kind) × (closer_size (drop at.0 s.now) ≡ closed result.kind) }
{
    if opens_quote(s, at) {
        let bracket = bracket_from(s, at, known);
        let kind = up_to_bracket(s, at, bracket).map_or(Kind::Plain, Kind::Opener);
        Tag { kind, bracket }
    } else if begins_at(s, at, b"[/quote]") {
        let bracket = bracket_from(s, at, known);
        let kind = up_to_bracket(s, at, bracket).map_or(Kind::Plain, Kind::Closer);
        Tag { kind, bracket }
    } else {
        Tag {
            kind: Kind::Plain,
            bracket: known,
        }
    }
}
