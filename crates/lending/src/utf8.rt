// UTF-8 by RFC 3629, section 4.
ghost use Rattle.std.specs.Prelude.{◌≡◌, ◌<◌, length, drop};
ghost use Rattle.lending.specs.Utf8.{tail, utf8-2, utf8-3, utf8-4, size, char_size, IsSize, utf8};

use text::scan::{byte_at, is_inside};

fn is_tail(b: u8) -> bool
    ensures { result ≡ tail b }
{
    is_inside(0x80, 0xbf, b)
}

fn is_utf8_2(a: u8, b: u8) -> bool
    ensures { result ≡ utf8-2 a b }
{
    is_inside(0xc2, 0xdf, a) & is_tail(b)
}

fn is_utf8_3(a: u8, b: u8, c: u8) -> bool
    ensures { result ≡ utf8-3 a b c }
{
    is_inside(0xe0, 0xe0, a) & is_inside(0xa0, 0xbf, b) & is_tail(c)
        | is_inside(0xe1, 0xec, a) & is_tail(b) & is_tail(c)
        | is_inside(0xed, 0xed, a) & is_inside(0x80, 0x9f, b) & is_tail(c)
        | is_inside(0xee, 0xef, a) & is_tail(b) & is_tail(c)
}

fn is_utf8_4(a: u8, b: u8, c: u8, d: u8) -> bool
    ensures { result ≡ utf8-4 a b c d }
{
    is_inside(0xf0, 0xf0, a) & is_inside(0x90, 0xbf, b) & is_tail(c) & is_tail(d)
        | is_inside(0xf1, 0xf3, a) & is_tail(b) & is_tail(c) & is_tail(d)
        | is_inside(0xf4, 0xf4, a) & is_inside(0x80, 0x8f, b) & is_tail(c) & is_tail(d)
}

// How many of four bytes are one character, if they begin with one.
fn size_of(a: u8, b: u8, c: u8, d: u8) -> Option<usize>
    ensures { IsSize (size a b c d) result }
{
    if is_inside(0x00, 0x7f, a) {
        Some(1)
    } else if is_utf8_2(a, b) {
        Some(2)
    } else if is_utf8_3(a, b, c) {
        Some(3)
    } else if is_utf8_4(a, b, c, d) {
        Some(4)
    } else {
        None
    }
}

// How many bytes the character at i has, if one is well-formed there.
pub fn char_size(s: &[u8], i: usize) -> Option<usize>
    requires { i < length s.now }
    ensures { IsSize (char_size (drop i s.now)) result }
{
    size_of(
        s[i],
        byte_at(s, i + 1),
        byte_at(s, i + 2),
        byte_at(s, i + 3),
    )
}

// A while: the steps differ.
pub fn is_utf8(s: &[u8]) -> bool
    ensures { result ≡ utf8 s.now }
{
    let mut i = 0;
    while i < s.len() {
        let Some(n) = char_size(s, i) else {
            return false;
        };
        i += n;
    }
    true
}
