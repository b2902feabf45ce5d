// The list tags.
ghost use Rattle.std.specs.Prelude.{◌≡◌, ◌≤◌, length, drop, get_or};
ghost use Rattle.text.specs.Ascii.{small};
ghost use Rattle.text.specs.Cells.{cells};
ghost use Rattle.list_blocks.specs.Tags.{Skips, rest_of, valued, tag_at};

use text::PostAt;
use text::cell::is_blank;
use text::scan::{begins_at, byte_at, small_of};

// The tag at a cell: `[list]` or, ordered, `[list=V]`, with the number of cells behind the `[`; `[*]`; `[/list]`; none.
#[derive(Clone, Copy)]
pub enum Tag {
    Opener(usize, bool),
    Item,
    Closer,
    Plain,
}

impl Tag {
    // How many of its cells stand behind its first.
    pub fn size(self) -> usize
        ensures { result ≡ rest_of self }
    {
        match self {
            Tag::Opener(n, _) => n,
            Tag::Item => 2,
            Tag::Closer => 6,
            Tag::Plain => 0,
        }
    }
}

// The first place from i on with a `]` or a cell that is not blank, or the end. A value ends there: no later byte is looked at.
fn skip_blank(src: &[u8], from: &[u32], i: usize) -> usize
    requires { (i ≤ length src.now) × (length src.now ≤ length from.now) }
    ensures { Skips (cells src.now from.now) i result }
{
    for r in i..src.len() {
        if src[r] == b']' || !is_blank(from[r]) {
            return r;
        }
    }
    src.len()
}

// What a text that begins with `[list=` begins with.
fn valued_at(src: &[u8], from: &[u32]) -> Tag
    requires { (6 ≤ length src.now) × (length src.now ≤ length from.now) }
    ensures { result ≡ valued (drop 6 (cells src.now from.now)) }
{
    let one = skip_blank(src, from, 6);
    if src.len() <= one || src[one] != b'1' {
        return Tag::Plain;
    }
    let end = skip_blank(src, from, one + 1);
    if src.len() <= end || src[end] != b']' {
        return Tag::Plain;
    }
    Tag::Opener(end, true)
}

// The tag that a text with the second letter of `[list` begins with.
fn opener_at(src: &[u8], from: &[u32]) -> Tag
    requires { (length src.now ≤ length from.now) × (small (get_or src.now 1 0) ≡ 108) }
    ensures { result ≡ tag_at (cells src.now from.now) }
{
    if begins_at(src, PostAt(0), b"[list]") {
        Tag::Opener(5, false)
    } else if begins_at(src, PostAt(0), b"[list=") {
        valued_at(src, from)
    } else {
        Tag::Plain
    }
}

// The tag that a text begins with. The first two bytes say which one it can be.
pub fn tag_at(src: &[u8], from: &[u32]) -> Tag
    requires { length src.now ≤ length from.now }
    ensures { result ≡ tag_at (cells src.now from.now) }
{
    if byte_at(src, 0) != b'[' {
        return Tag::Plain;
    }
    match small_of(byte_at(src, 1)) {
        b'l' => opener_at(src, from),
        b'*' if begins_at(src, PostAt(0), b"[*]") => Tag::Item,
        b'/' if begins_at(src, PostAt(0), b"[/list]") => Tag::Closer,
        _ => Tag::Plain,
    }
}
