// Reading tags: `[`, letter, `]`, or `[`, `/`, letter, `]`.
ghost use Rattle.std.specs.Prelude.{◌≡◌, ◌<◌, length, drop};
ghost use Rattle.mark_tags.specs.Marks.{kind_of, tag_of_bytes, tag_at};
ghost use Rattle.mark_tags.specs.Flat.{letter_number, tag_number};

use std::hint::select_unpredictable;
use text::scan::byte_at;

// The kind that a letter names, as a number; 4 where there is none: a tag's number is the code of its item. Tables in two numbers: branches on the
// letter would be mispredicted.
fn kind_of(a: u8) -> u32
    ensures { result ≡ letter_number (kind_of a) }
{
    let small = u32::from(a) | 0x20;
    // the low four bits of b, i, u and s differ: at each of them stands its kind, of two bits
    let kind = (0x408c0 >> (2 * (small & 15))) & 3;
    // the letter of each kind
    let letter = (0x73756962 >> (8 * kind)) & 255;
    select_unpredictable(small == letter, kind, 4)
}

// The tag that starts with these four bytes, as a number; 0 where there is none. One branch for all tags, likewise.
fn tag_of(a: u8, b: u8, c: u8, d: u8) -> u32
    ensures { result ≡ tag_number (tag_of_bytes a b c d) }
{
    let opens = c == b']';
    let whole = opens | ((b == b'/') & (d == b']'));
    let k = kind_of(select_unpredictable(opens, b, c));
    if (a == b'[') & whole & (k < 4) {
        return 12 + k - 4 * u32::from(opens);
    }
    0
}

// The tag at i, as a number; 0 where there is none.
pub fn tag_at(s: &[u8], i: usize) -> u32
    requires { i < length s.now }
    ensures { result ≡ tag_number (tag_at (drop i s.now)) }
{
    let a = s[i];
    if a != b'[' {
        return 0;
    }
    tag_of(a, byte_at(s, i + 1), byte_at(s, i + 2), byte_at(s, i + 3))
}
