// Masking a text in place: code, c, icode and noparse become spaces, one for each character. Every `]` and every closer is looked for once:
// the place of the next one is kept.
ghost use Rattle.std.specs.Prelude.{◌≡◌, cond, false, List, [], ◌∷◌, ℕ, ◌+◌, ◌-◌, ◌≤◌, ◌<◌, length, take, drop, get_or};
ghost use Rattle.text.specs.Ascii.{is, inside, to_bracket};
ghost use Rattle.quote_tags.specs.Tags.{NextBracket, begins_any, tag_size, sized};
ghost use Rattle.quote_tags.specs.Masks.{either, mask_of, to_closer, region, blanked, Masked, Rewritten, KnownCloser, visible, NoMask, NoOpener};

use crate::tag::{bracket_from, up_to_bracket};
use text::PostAt;
use text::scan::{begins_at, byte_at, is_inside, next_bracket, small_of};

// Two words, with either of which a tag begins.
#[derive(Clone, Copy)]
pub struct Words<'a> {
    pub first: &'a [u8],
    pub second: &'a [u8],
}

// A mask: the words that open it and those that close it, and the letters, as second and as third byte, by which its openers are looked for.
#[derive(Clone, Copy)]
pub struct Mask<'a> {
    pub letter2: u8,
    pub letter3: u8,
    pub opens: Words<'a>,
    pub closes: Words<'a>,
}

// Whether the text from a place on begins with one of two words.
fn begins_either(s: &[u8], at: PostAt, words: Words) -> bool
    requires { at.0 ≤ length s.now }
    ensures { result ≡ begins_any (either words.entry) (drop at.0 s.now) }
{
    begins_at(s, at, words.first) || begins_at(s, at, words.second)
}

// The place of the first closer from a place on, or the end.
fn next_closer(s: &[u8], at: PostAt, words: Words) -> PostAt
    requires { at.0 ≤ length s.now }
    ensures { result.0 ≡ at.0 + to_closer (either words.entry) (drop at.0 s.now) }
{
    for i in at.0..s.len() {
        if begins_either(s, PostAt(i), words) {
            return PostAt(i);
        }
    }
    PostAt(s.len())
}

// The size of an opener or a closer at a place, one of two words and anything up to `]`, if one is there.
fn size_of_either(s: &[u8], at: PostAt, bracket: PostAt, words: Words) -> Option<usize>
    requires { (at.0 ≤ length s.now) × (bracket.0 ≡ at.0 + to_bracket (drop at.0 s.now)) }
    ensures { result ≡ sized (tag_size (either words.entry) (drop at.0 s.now)) }
{
    if begins_either(s, at, words) {
        up_to_bracket(s, at, bracket)
    } else {
        None
    }
}

// The next closer, and the place from which on it is.
#[derive(Clone, Copy)]
pub struct Closer {
    pub from: PostAt,
    pub at: PostAt,
}

// The first closer from a place on, where one may be known, from `low` on.
fn closer_from(s: &[u8], low: usize, at: PostAt, known: Closer, words: Words) -> Closer
    requires { ((low ≤ at.0) × (at.0 ≤ length s.now)) × KnownCloser (either words) s.now low known.from.0 known.at.0 }
    ensures { (result.at.0 ≡ at.0 + to_closer (either words.entry) (drop at.0 s.now)) × KnownCloser (either words.entry) s.now low result.from.0 result.at.0 }
{
    if known.from.0 <= at.0 && at.0 <= known.at.0 {
        known
    } else {
        Closer {
            from: at,
            at: next_closer(s, at, words),
        }
    }
}

// How many bytes the masked region at a place has, if one begins there, and the next `]` and closer.
#[derive(Clone, Copy)]
pub struct Region {
    pub size: Option<usize>,
    pub bracket: PostAt,
    pub closer: Closer,
}

fn region_at(s: &[u8], at: PostAt, bracket: PostAt, closer: Closer, mask: Mask) -> Region
    requires { (at.0 < length s.now) × (NextBracket s.now at.0 bracket.0 × KnownCloser (either mask.closes) s.now at.0 closer.from.0 closer.at.0) }
    ensures { (result.size ≡ sized (region (mask_of mask.entry) (drop at.0 s.now))) × ((result.bracket.0 ≡ at.0 + to_bracket (drop at.0 s.now)) × KnownCloser (either mask.entry.closes) s.now at.0 result.closer.from.0 result.closer.at.0) }
{
    let bracket = bracket_from(s, at, bracket);
    let Some(k) = size_of_either(s, at, bracket, mask.opens) else {
        return Region {
            size: None,
            bracket,
            closer,
        };
    };
    let closer = closer_from(s, at.0, PostAt(at.0 + k), closer, mask.closes);
    let q = closer.at;
    let Some(z) = size_of_either(s, q, next_bracket(s, q), mask.closes) else {
        return Region {
            size: None,
            bracket,
            closer,
        };
    };
    Region {
        size: Some(q.0 - at.0 + z),
        bracket,
        closer,
    }
}

// What stands in a region for a character that begins with a byte: line feeds are kept.
fn blank_for(b: u8) -> u8
    ensures { result ≡ cond (is "\n" b) 10 32 }
{
    if b == b'\n' { b } else { b' ' }
}

// How many characters begin with a byte: one or none.
fn characters_by(b: u8) -> usize
    ensures { result ≡ cond (inside 0x80 0xBF b) 0 1 }
{
    usize::from(!is_inside(0x80, 0xbf, b))
}

// Whether a word that opens a mask may begin with these bytes: `[c`, `[n`, or `[i` and no `]`. (Of 16 places at once a machine tells `]` from
// other bytes with less work than the c of `[icode]`.)
fn may_open(a: u8, b: u8, c: u8) -> bool
    ensures { result ≡ false → (x : List ℕ) → get_or x 0 0 ≡ a → get_or x 1 0 ≡ b → get_or x 2 0 ≡ c → NoMask x }
{
    let by_c = (b == b'c') | (b == b'C');
    let by_n = (b == b'n') | (b == b'N');
    let by_i = ((b == b'i') | (b == b'I')) & (c != b']');
    (a == b'[') & (by_c | by_n | by_i)
}

// Whether a closure takes three bytes one behind another from one of the N places from i on. It is asked at each of them, so that a machine can
// compare many at once.
fn taken_among<const N: usize, P: Fn(u8, u8, u8) -> bool>(s: &[u8], i: usize, takes: &P) -> bool
    requires inside { i + N + 2 ≤ length s.now }
    requires callable { P.IsAlwaysCallable takes.now }
    ensures { result ≡ false → (j : ℕ) → i ≤ j → j < i + N → P.post takes.now (get_or s.now j 0) (get_or s.now (j + 1) 0) (get_or s.now (j + 2) 0) false }
{
    let mut taken = false;
    for k in i..i + N {
        taken |= takes(s[k], s[k + 1], s[k + 2]);
    }
    taken
}

// The first place from a place on where a closure takes the three bytes from there on, 0 behind the end, or the end. So long as there are, N
// places are passed over together. A while: the last block may not be whole.
fn first_taken<const N: usize, P: Fn(u8, u8, u8) -> bool>(s: &[u8], at: PostAt, takes: P) -> PostAt
    requires inside { at.0 ≤ length s.now }
    requires block { (0 < N) × (N ≤ 64) }
    requires callable { P.IsAlwaysCallable takes }
    ensures inside { (at.0 ≤ result.0) × (result.0 ≤ length s.now) }
    ensures before { (j : ℕ) → at.0 ≤ j → j < result.0 → P.post takes (get_or s.now j 0) (get_or s.now (j + 1) 0) (get_or s.now (j + 2) 0) false }
{
    let mut i = at.0;
    while N + 2 <= s.len() - i && !taken_among::<N, P>(s, i, &takes) {
        i += N;
    }
    for k in i..s.len() {
        if takes(s[k], byte_at(s, k + 1), byte_at(s, k + 2)) {
            return PostAt(k);
        }
    }
    PostAt(s.len())
}

// The first place from a place on where a mask may begin, or the end.
fn next_mask(s: &[u8], at: PostAt) -> PostAt
    requires { at.0 ≤ length s.now }
    ensures { ((at.0 ≤ result.0) × (result.0 ≤ length s.now)) × ((j : ℕ) → at.0 ≤ j → j < result.0 → NoMask (drop j s.now)) }
{
    first_taken::<16, _>(s, at, may_open)
}

// Whether a word that opens one of the masks may begin with these bytes: `[`, then its letter as second or as third byte, in either case. (No
// byte is 0 with its bit 0x20 set: 0 stands for no letter.)
fn may_open_by(a: u8, b: u8, c: u8, letter2: u8, letter3: u8) -> bool
    ensures { result ≡ false → (x : List ℕ) → get_or x 0 0 ≡ a → get_or x 1 0 ≡ b → get_or x 2 0 ≡ c → NoOpener letter2 letter3 x }
{
    (a == b'[') & ((b | 0x20 == letter2) | (c | 0x20 == letter3))
}

// The first place from a place on where a word by these letters may begin, or the end.
pub fn next_opener(s: &[u8], at: PostAt, letter2: u8, letter3: u8) -> PostAt
    requires { at.0 ≤ length s.now }
    ensures { ((at.0 ≤ result.0) × (result.0 ≤ length s.now)) × ((j : ℕ) → at.0 ≤ j → j < result.0 → NoOpener letter2 letter3 (drop j s.now)) }
{
    first_taken::<32, _>(s, at, |a, b, c| may_open_by(a, b, c, letter2, letter3))
}

// Moves the bytes from a up to e down to a place before them, and returns the place behind them.
fn move_down(buf: &mut [u8], a: usize, e: usize, to: usize) -> usize
    requires { (to ≤ a) × ((a ≤ e) × (e ≤ length buf.old)) }
    ensures { Rewritten (λ b. b ∷ []) buf.old a e to buf.new result }
{
    if to < a {
        buf.copy_within(a..e, to);
    }
    to + (e - a)
}

// Writes a blank for each character from a up to e, from a place before them on, and returns the place behind the blanks. (What is written for a
// byte that begins none is written over: a branch on the byte is mispredicted.)
fn blank_out(buf: &mut [u8], a: usize, e: usize, to: usize) -> usize
    requires { (to ≤ a) × ((a ≤ e) × (e ≤ length buf.old)) }
    ensures { Rewritten blanked buf.old a e to buf.new result }
{
    let mut t = to;
    for i in a..e {
        let b = buf[i];
        buf[t] = blank_for(b);
        t += characters_by(b);
    }
    t
}

// Masks the first n bytes by a mask, and returns how many bytes are left. A while: regions have different sizes.
fn mask_by(buf: &mut [u8], n: usize, mask: Mask) -> usize
    requires { (n ≤ length buf.old) × ((x : List ℕ) → NoOpener mask.letter2 mask.letter3 x → region (mask_of mask) x ≡ 0) }
    ensures { Masked (mask_of mask.entry) n buf.old result buf.new }
{
    let mut i: usize = 0;
    let mut to: usize = 0;
    let mut bracket = next_bracket(&buf[..n], PostAt(0));
    let mut closer = Closer {
        from: PostAt(1),
        at: PostAt(0),
    };
    while i < n {
        let next = next_opener(&buf[..n], PostAt(i), mask.letter2, mask.letter3);
        to = move_down(buf, i, next.0, to);
        i = next.0;
        if n <= i {
            return to;
        }
        let here = region_at(&buf[..n], PostAt(i), bracket, closer, mask);
        bracket = here.bracket;
        closer = here.closer;
        match here.size {
            Some(size) => {
                to = blank_out(buf, i, i + size, to);
                i += size;
            }
            None => {
                to = move_down(buf, i, i + 1, to);
                i += 1;
            }
        }
    }
    to
}

// Masks the first n bytes by code, then by c and icode, then by noparse. (The c of `[icode]` is its third byte.) Returns how many bytes are left.
fn mask_each(buf: &mut [u8], n: usize) -> usize
    requires { n ≤ length buf.old }
    ensures { (result ≤ n) × (take result buf.new ≡ visible (take n buf.old)) }
{
    let code = Mask {
        letter2: b'c',
        letter3: 0,
        opens: Words {
            first: b"[code]",
            second: b"[code=",
        },
        closes: Words {
            first: b"[/code]",
            second: b"[/code]",
        },
    };
    let icode = Mask {
        letter2: b'c',
        letter3: b'c',
        opens: Words {
            first: b"[c]",
            second: b"[icode]",
        },
        closes: Words {
            first: b"[/c]",
            second: b"[/icode]",
        },
    };
    let noparse = Mask {
        letter2: b'n',
        letter3: 0,
        opens: Words {
            first: b"[noparse]",
            second: b"[noparse]",
        },
        closes: Words {
            first: b"[/noparse]",
            second: b"[/noparse]",
        },
    };
    let a = mask_by(buf, n, code);
    let b = mask_by(buf, a, icode);
    mask_by(buf, b, noparse)
}

// Whether a word that opens a mask stands at a place.
fn opens_mask(s: &[u8], at: PostAt) -> bool
    requires { at.0 < length s.now }
    ensures { result ≡ false → NoMask (drop at.0 s.now) }
{
    match small_of(byte_at(s, at.0 + 1)) {
        b'c' => begins_at(s, at, b"[code") || begins_at(s, at, b"[c]"),
        b'i' => begins_at(s, at, b"[icode]"),
        b'n' => begins_at(s, at, b"[noparse]"),
        _ => false,
    }
}

// Whether a word that opens a mask stands anywhere.
fn has_mask(s: &[u8]) -> bool
    ensures { result ≡ false → visible s.now ≡ s.now }
{
    let mut next = next_mask(s, PostAt(0));
    while next.0 < s.len() {
        if opens_mask(s, next) {
            return true;
        }
        next = next_mask(s, PostAt(next.0 + 1));
    }
    false
}

// As `mask_each`, which most texts need not: they have no mask.
pub fn mask_all(buf: &mut [u8], n: usize) -> usize
    requires { n ≤ length buf.old }
    ensures { (result ≤ n) × (take result buf.new ≡ visible (take n buf.old)) }
{
    if has_mask(&buf[..n]) {
        mask_each(buf, n)
    } else {
        n
    }
}
