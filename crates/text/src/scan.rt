// Reading bytes: ranges, tag letters in either ASCII case, the next byte of a kind.
ghost use Rattle.std.specs.Prelude.{◌≡◌, ℕ, Bool, cond, ◌+◌, ◌≤◌, ◌<◌, length, get_or, drop, eqb, ltb};
ghost use Rattle.text.specs.Ascii.{inside, small, begins, to_first, binary, to_bracket};

use crate::PostAt;
use std::simd::u8x16;

// The byte at i, 0 past the end.
pub fn byte_at(s: &[u8], i: usize) -> u8
    ensures { result ≡ get_or s.now i 0 }
{
    s.get(i).copied().unwrap_or(0)
}

pub fn is_inside(lo: u8, hi: u8, b: u8) -> bool
    ensures { result ≡ inside lo hi b }
{
    (lo..=hi).contains(&b)
}

// An ASCII letter in small, any other byte as it is.
pub fn small_of(b: u8) -> u8
    ensures { result ≡ small b }
{
    b.to_ascii_lowercase()
}

// Whether the text from a place on begins with a word (in small letters), ASCII letters in either case.
pub fn begins_at(s: &[u8], at: PostAt, word: &[u8]) -> bool
    requires { at.0 ≤ length s.now }
    ensures { result ≡ begins word.now (drop at.0 s.now) }
{
    let rest = &s[at.0..];
    for k in 0..word.len() {
        if rest.len() <= k || small_of(rest[k]) != word[k] {
            return false;
        }
    }
    true
}

// The first place from a place on whose byte a closure takes, or the end.
pub fn first_from<P: Fn(u8) -> bool>(s: &[u8], at: usize, takes: P) -> usize
    requires inside { at ≤ length s.now }
    requires callable { P.IsAlwaysCallable takes }
    ensures inside { (at ≤ result) × (result ≤ length s.now) }
    ensures first { (q : ℕ → Bool) → ((b : ℕ) (t : Bool) → P.post takes b t → t ≡ q b) → result ≡ at + to_first q (drop at s.now) }
{
    match s[at..].iter().position(|&b| takes(b)) {
        Some(n) => at + n,
        None => s.len(),
    }
}

// The 16 bytes from i on as binary digits, the first the lowest: set where the byte is b. One comparison of all 16.
fn equal_in_16(s: &[u8], i: usize, b: u8) -> u64
    requires { i + 16 ≤ length s.now }
    ensures { result ≡ binary (λ x. eqb x b) 16 (drop i s.now) }
{
    u8x16::from_slice(&s[i..])
        .simd_eq(u8x16::splat(b))
        .to_bitmask()
}

// The place of the first byte b from a place on, or the end.
pub fn next_byte(s: &[u8], at: PostAt, b: u8) -> PostAt
    requires { at.0 ≤ length s.now }
    ensures { result.0 ≡ at.0 + to_first (λ x. eqb x b) (drop at.0 s.now) }
{
    let mut i = at.0;
    // A while: what is left behind the last block is no block.
    while 16 <= s.len() - i {
        let found = equal_in_16(s, i, b);
        if found != 0 {
            return PostAt(i + found.trailing_zeros() as usize);
        }
        i += 16;
    }
    PostAt(first_from(s, i, |x| x == b))
}

// The place of the first `]` from a place on, or the end.
pub fn next_bracket(s: &[u8], at: PostAt) -> PostAt
    requires { at.0 ≤ length s.now }
    ensures { result.0 ≡ at.0 + to_bracket (drop at.0 s.now) }
{
    next_byte(s, at, b']')
}
