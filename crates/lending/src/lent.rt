// What is lent, and the refusals 1 to 4 that every operation on a text begins with (document 01, "Lent memory and turned-back calls").
ghost use Rattle.std.specs.Prelude.{◌≡◌, not, cond, ◌&&◌, ◌||◌, ℕ, ◌+◌, ◌≤◌, ◌<◌, length, drop, map, leb};
ghost use Rattle.std.specs.Simd.Lanes.{mask_l};
ghost use Rattle.text.specs.Ascii.{to_first};
ghost use Rattle.text.specs.Bounds.{text_most};
ghost use Rattle.lending.specs.Utf8.{utf8};
ghost use Rattle.lending.specs.Lent.{number_of, sizes_right, zero_or_return, any_zero_or_return, checked};

use crate::utf8::{char_size, is_utf8};
use std::simd::prelude::*;
use text::bounds::{OUT_MOST, TEXT_MOST, numbers_size, work_size};

// Why a call is turned back; the numbers are document 01's.
#[derive(Clone, Copy, Debug, PartialEq, Eq)]
pub enum Refusal {
    TextTooLong = 1,
    SizesWrong = 2,
    NotUtf8 = 3,
    ZeroOrReturn = 4,
    TooDeep = 5,
    NoSpace = 6,
    TooManyLosses = 7,
    LossBytesShort = 8,
    NotSeconds = 9,
}

impl From<Refusal> for u32 {
    ghost from_gives = { λ refusal number. number ≡ number_of refusal };

    fn from(refusal: Refusal) -> u32 {
        refusal as u32
    }
}

// The lengths of what is lent; of span numbers only where marks takes some.
#[derive(Clone, Copy, Debug)]
pub struct Lent {
    pub out: usize,
    pub origins: usize,
    pub work: usize,
    pub numbers: usize,
    pub spans: Option<usize>,
}

#[tactic(auto, unfolding(crate::specs::Lent::sizes_right))]
fn sizes_right(n: usize, lent: Lent) -> bool
    requires { n ≤ text_most }
    ensures { result ≡ sizes_right n lent }
{
    lent.out <= OUT_MOST
        && lent.out <= lent.origins
        && work_size(n, lent.out) <= lent.work
        && numbers_size(n, lent.out) <= lent.numbers
        && lent.spans.is_none_or(|spans| 2 * (n / 3) <= spans)
}

fn is_zero_or_return(b: u8) -> bool
    ensures { result ≡ zero_or_return b }
{
    (b == 0) | (b == 13)
}

// Which of 16 bytes are odd, which is 0, 13 or not ASCII: one bit each, the first byte's the lowest.
fn odd_bits(block: u8x16) -> u64
    ensures { result ≡ mask_l (map (λ x. leb 128 x || zero_or_return x) block) }
{
    (block.simd_ge(u8x16::splat(128))
        | block.simd_eq(u8x16::splat(0))
        | block.simd_eq(u8x16::splat(13))).to_bitmask()
}

// How many of the 16 bytes from i on stand before the first odd one; 16 where none is odd.
fn before_odd(s: &[u8], i: usize) -> usize
    requires { i + 16 ≤ length s.now }
    ensures { (result ≤ 16) × (result ≤ to_first (λ x. leb 128 x || zero_or_return x) (drop i s.now)) }
{
    let odd = odd_bits(u8x16::from_slice(&s[i..]));
    odd.trailing_zeros().min(16) as usize
}

// Past bytes from a place on none of which is odd, in blocks of 16. A while: it ends within the first block that has an odd byte.
fn past_clean(s: &[u8], at: usize) -> usize
    requires { at ≤ length s.now }
    ensures { (at ≤ result) × (result ≤ length s.now) × ((utf8 (drop at s.now) && not (any_zero_or_return (drop at s.now))) ≡ (utf8 (drop result s.now) && not (any_zero_or_return (drop result s.now)))) }
{
    let mut i = at;
    while 16 <= s.len() - i {
        let n = before_odd(s, i);
        if n < 16 {
            return i + n;
        }
        i += 16;
    }
    i
}

// Whether neither refusal 3 nor 4 applies. Where a block is odd, its characters are read one by one, up to e: at most past its first
// character of more bytes than one. A while: the steps differ.
fn is_clean(s: &[u8]) -> bool
    ensures { result ≡ (utf8 s.now && not (any_zero_or_return s.now)) }
{
    let mut i = 0;
    let mut e = 0;
    while i < s.len() {
        if e <= i {
            i = past_clean(s, i);
            e = i + 16;
        } else {
            let b = s[i];
            if b < 128 {
                if is_zero_or_return(b) {
                    return false;
                }
                i += 1;
            } else {
                let Some(n) = char_size(s, i) else {
                    return false;
                };
                i += n;
                e = i;
            }
        }
    }
    true
}

// The first of the refusals 1 to 4 that applies.
#[tactic(auto, unfolding(crate::specs::Lent::checked))]
pub fn check(text: &[u8], lent: Lent) -> Result<(), Refusal>
    ensures { result ≡ checked text.now lent }
{
    if text.len() > TEXT_MOST {
        return Err(Refusal::TextTooLong);
    }
    if !sizes_right(text.len(), lent) {
        return Err(Refusal::SizesWrong);
    }
    if is_clean(text) {
        return Ok(());
    }
    Err(if is_utf8(text) {
        Refusal::ZeroOrReturn
    } else {
        Refusal::NotUtf8
    })
}
