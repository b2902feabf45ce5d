// The post of a case: `post=`, then its bytes, LF as `\n`, backslash as `\\`, and as `\xNN` a byte that no listing has.
ghost use Rattle.std.specs.Prelude.{◌≤◌, ◌<◌, length, IfSome};

use post_listing::{POST_MOST, list_thread};
use text::PostAt;
use text::scan::begins_at;

// What a post's line begins with.
const KEY: &[u8] = b"post=";

// That and one byte more than a post may have: a longer one is refused, however long it is.
const LINE_ROOM: usize = KEY.len() + POST_MOST + 1;

// A hexadecimal digit in small letters.
fn digit(b: u8) -> u8
    ensures { result < 16 }
{
    match b {
        b'a'.. => (b - b'a' + 10) % 16,
        _ => b % 16,
    }
}

// The first byte that a line stands for, and what is behind it.
fn first_byte(s: &[u8]) -> Option<(u8, &[u8])> {
    match s {
        [] | [b'\n', ..] => None,
        [b'\\', b'x', high, low, behind @ ..] => Some((16 * digit(*high) + digit(*low), behind)),
        [b'\\', b'n', behind @ ..] => Some((b'\n', behind)),
        [b'\\', b, behind @ ..] => Some((*b, behind)),
        [b, behind @ ..] => Some((*b, behind)),
    }
}

// The bytes that the line stands for that `s` begins with, as far as there is room.
fn unescape<'a>(s: &[u8], room: &'a mut [u8]) -> &'a [u8]
    ensures { length result.now ≤ length room.old }
{
    let mut rest = s;
    for n in 0..room.len() {
        let Some((b, behind)) = first_byte(rest) else {
            return &room[..n];
        };
        room[n] = b;
        rest = behind;
    }
    room
}

// Lists the post whose line `s` begins with at the start of `buf`; None where there is no post, or its listing does not fit.
pub fn list_line<'a>(s: &[u8], buf: &'a mut [u8], nums: &mut [u32]) -> Option<&'a [u8]>
    ensures { IfSome result (λ line. length line.now ≤ length buf.old) }
{
    let mut room = [0u8; LINE_ROOM];
    let line = unescape(s, &mut room);
    let post = line.get(KEY.len()..)?;
    if !begins_at(line, PostAt(0), KEY) {
        return None;
    }
    let end = list_thread(post, buf, nums);
    buf.get(..end.0)
}
