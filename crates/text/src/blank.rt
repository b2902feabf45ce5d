// The 25 blank characters, and the cells of a post.
ghost use Rattle.std.specs.Prelude.{◌≡◌, cond, ◌&&◌, ◌||◌, ℕ, ◌+◌, ◌≤◌, ◌<◌, min, length, drop, get_or, eqb, leb, ltb};
ghost use Rattle.text.specs.Ascii.{to_first};
ghost use Rattle.text.specs.Bounds.{text_most};
ghost use Rattle.text.specs.Blanks.{blank1, blank2, blank_e280, blank3, blank_width, blank_size};
ghost use Rattle.text.specs.Cells.{blank_at, more_after, cells, cells_of, numbered_to};

use crate::PostAt;
use crate::cell::post_code;
use crate::scan::byte_at;

#[tactic(auto, unfolding(crate::specs::Ascii::inside, crate::specs::Blanks::blank1))]
fn is_blank1(a: u8) -> bool
    ensures { result ≡ blank1 a }
{
    matches!(a, 0x09..=0x0d | 0x20)
}

#[tactic(auto, unfolding(crate::specs::Blanks::blank2))]
fn is_blank2(a: u8, b: u8) -> bool
    ensures { result ≡ blank2 a b }
{
    a == 0xc2 && matches!(b, 0x85 | 0xa0)
}

#[tactic(auto, unfolding(crate::specs::Ascii::inside, crate::specs::Blanks::blank_e280))]
fn is_blank_e280(c: u8) -> bool
    ensures { result ≡ blank_e280 c }
{
    matches!(c, 0x80..=0x8a | 0xa8..=0xa9 | 0xaf)
}

#[tactic(auto, unfolding(crate::specs::Blanks::blank3))]
fn is_blank3(a: u8, b: u8, c: u8) -> bool
    ensures { result ≡ blank3 a b c }
{
    match (a, b) {
        (0xe2, 0x80) => is_blank_e280(c),
        (0xe2, 0x81) => c == 0x9f,
        (0xe1, 0x9a) | (0xe3, 0x80) => c == 0x80,
        _ => false,
    }
}

#[tactic(auto, unfolding(crate::specs::Blanks::blank_width))]
fn blank_width(a: u8, b: u8, c: u8) -> usize
    ensures { result ≡ blank_width a b c }
{
    if is_blank1(a) {
        1
    } else if is_blank2(a, b) {
        2
    } else if is_blank3(a, b, c) {
        3
    } else {
        0
    }
}

// How many bytes the blank character at i has, 0 where none is there.
fn blank_size(s: &[u8], i: usize) -> usize
    requires { i < length s.now }
    ensures { result ≡ blank_size (drop i s.now) }
{
    blank_width(s[i], byte_at(s, i + 1), byte_at(s, i + 2))
}

// 1 for an ASCII byte that is blank, else 0.
fn ascii_blank(b: u8) -> u8
    ensures { result ≡ cond (blank1 b) 1 0 }
{
    u8::from(is_blank1(b))
}

// The number of a byte's cell, as far as its character decides it: 1 where it is blank, else 0; and how many bytes are left of a blank
// character behind the byte.
#[derive(Clone, Copy)]
pub struct Place {
    pub blank: u32,
    pub more: usize,
}

// The place of the byte at a place, where `more` bytes are left of a blank character that began before it. An ASCII byte is told without a branch: one
// would be mispredicted.
pub fn place_at(s: &[u8], at: PostAt, more: usize) -> Place
    requires { at.0 < length s.now }
    ensures { (result.blank ≡ cond (blank_at more (drop at.0 s.now)) 1 0) × (result.more ≡ more_after more (drop at.0 s.now)) }
{
    if 0 < more {
        return Place {
            blank: 1,
            more: more - 1,
        };
    }
    let i = at.0;
    let b = s[i];
    if b < 0x80 {
        return Place {
            blank: u32::from(ascii_blank(b)),
            more: 0,
        };
    }
    let n = blank_size(s, i);
    Place {
        blank: u32::from(0 < n),
        more: n.saturating_sub(1),
    }
}

// Whether one of the 16 bytes from i on can begin a blank character of more than one byte.
fn has_lead_16(s: &[u8], i: usize) -> bool
    requires { i + 16 ≤ length s.now }
    ensures { result ≡ ltb (to_first (λ x. eqb x 0xC2 || (leb 0xE1 x && leb x 0xE3)) (drop i s.now)) 16 }
{
    let mut has = false;
    for k in 0..16 {
        let b = s[i + k];
        has = has | ((b == 0xc2) | ((0xe1 <= b) & (b <= 0xe3)));
    }
    has
}

// Past blocks of 16 bytes from a place on none of which can begin a blank character of more than one byte.
fn past_plain(s: &[u8], at: usize) -> usize
    requires { at ≤ length s.now }
    ensures { (at ≤ result) × (result ≤ length s.now) × (result ≤ at + to_first (λ x. eqb x 0xC2 || (leb 0xE1 x && leb x 0xE3)) (drop at s.now)) }
{
    // A while: it ends at the first block that can't be passed.
    let mut i = at;
    while 16 <= s.len() - i && !has_lead_16(s, i) {
        i += 16;
    }
    i
}

// Sets the first n flags: 1 for a blank ASCII byte from i on, else 0.
fn set_flags(s: &[u8], i: usize, n: usize, flags: &mut [u8])
    requires { (i + n ≤ length s.now) × (n ≤ length flags.old) }
    ensures { (k : ℕ) → k < n → get_or flags.new k 0 ≡ cond (blank1 (get_or s.now (i + k) 0)) 1 0 }
{
    for k in 0..n {
        flags[k] = ascii_blank(s[i + k]);
    }
}

// Numbers n bytes from i on, none of which can begin a blank character of more than one byte. The flags stand in an array of bytes first, so that
// 16 of them are found at once where the machine can.
fn number_run(s: &[u8], i: usize, n: usize, nums: &mut [u32])
    requires { ((length s.now ≤ text_most) × (length s.now ≤ length nums.old)) × ((n ≤ 512) × (i + n ≤ length s.now) × (n ≤ to_first (λ x. eqb x 0xC2 || (leb 0xE1 x && leb x 0xE3)) (drop i s.now))) }
    ensures { numbered_to i s.now nums.old ≡ numbered_to (i + n) s.now nums.new }
{
    let mut flags: [u8; 512] = [0; 512];
    set_flags(s, i, n, &mut flags);
    // j is the place i + k as a u32, so that codes are made four at a time.
    let mut j = i as u32;
    for k in 0..n {
        nums[i + k] = post_code(j, u32::from(flags[k]));
        j += 1;
    }
}

// Numbers the bytes from i up to e, none of which can begin a blank character of more than one byte.
fn number_plain(s: &[u8], i: usize, e: usize, nums: &mut [u32])
    requires { ((length s.now ≤ text_most) × (length s.now ≤ length nums.old)) × ((i ≤ e) × (e ≤ length s.now) × (e ≤ i + to_first (λ x. eqb x 0xC2 || (leb 0xE1 x && leb x 0xE3)) (drop i s.now))) }
    ensures { numbered_to i s.now nums.old ≡ numbered_to e s.now nums.new }
{
    // A while: the last step is shorter.
    let mut j = i;
    while j < e {
        let n = (e - j).min(512);
        number_run(s, j, n, nums);
        j += n;
    }
}

// Numbers 16 bytes from i on, or fewer at the end, with what is left of a blank character that they cut; the place behind them.
fn number_part(s: &[u8], i: usize, nums: &mut [u32]) -> usize
    requires { ((length s.now ≤ text_most) × (length s.now ≤ length nums.old)) × (i ≤ length s.now) }
    ensures { (min (i + 16) (length s.now) ≤ result) × (result ≤ length s.now) × (numbered_to i s.now nums.old ≡ numbered_to result s.now nums.new) }
{
    let mut left: usize = 0;
    for j in i..s.len() {
        if left == 0 && 16 <= j - i {
            return j;
        }
        let p = place_at(s, PostAt(j), left);
        nums[j] = post_code(j as u32, p.blank);
        left = p.more;
    }
    s.len()
}

// Numbers the bytes of a text as a post's cells.
pub fn number(s: &[u8], nums: &mut [u32])
    requires { (length s.now ≤ text_most) × (length s.now ≤ length nums.old) }
    ensures { cells s.now nums.new ≡ cells_of s.now }
{
    // A while: the steps differ.
    let mut i: usize = 0;
    while i < s.len() {
        let e = past_plain(s, i);
        number_plain(s, i, e, nums);
        i = number_part(s, e, nums);
    }
}
