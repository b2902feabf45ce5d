// The class of a byte, by a table; and the test for the braced form.
ghost use Rattle.std.specs.Prelude.{◌≡◌, ◌≤◌};
ghost use Rattle.mark_tags.specs.Marks.{braced};

use text::scan::byte_at;

// 0 other, 1 word, 2 space.
const CLASS: [u8; 256] = [
    0, 0, 0, 0, 0, 0, 0, 0, 0, 2, 2, 0, 0, 2, 0, 0, 0, 0, 0, 0, 0, 0, 0, 0, 0, 0, 0, 0, 0, 0, 0, 0,
    2, 0, 0, 0, 0, 0, 0, 0, 0, 0, 0, 0, 0, 0, 0, 0, 1, 1, 1, 1, 1, 1, 1, 1, 1, 1, 0, 0, 0, 0, 0, 0,
    0, 1, 1, 1, 1, 1, 1, 1, 1, 1, 1, 1, 1, 1, 1, 1, 1, 1, 1, 1, 1, 1, 1, 1, 1, 1, 1, 0, 0, 0, 0, 1,
    0, 1, 1, 1, 1, 1, 1, 1, 1, 1, 1, 1, 1, 1, 1, 1, 1, 1, 1, 1, 1, 1, 1, 1, 1, 1, 1, 0, 0, 0, 0, 0,
    0, 0, 0, 0, 0, 0, 0, 0, 0, 0, 0, 0, 0, 0, 0, 0, 0, 0, 0, 0, 0, 0, 0, 0, 0, 0, 0, 0, 0, 0, 0, 0,
    0, 0, 0, 0, 0, 0, 0, 0, 0, 0, 0, 0, 0, 0, 0, 0, 0, 0, 0, 0, 0, 0, 0, 0, 0, 0, 0, 0, 0, 0, 0, 0,
    0, 0, 0, 0, 0, 0, 0, 0, 0, 0, 0, 0, 0, 0, 0, 0, 0, 0, 0, 0, 0, 0, 0, 0, 0, 0, 0, 0, 0, 0, 0, 0,
    0, 0, 0, 0, 0, 0, 0, 0, 0, 0, 0, 0, 0, 0, 0, 0, 0, 0, 0, 0, 0, 0, 0, 0, 0, 0, 0, 0, 0, 0, 0, 0,
];

// 256 stands where there is no character, and not an `Option`: it is looked up like a byte, without a branch. A table is made anew wherever its name
// stands: here once for the four classes.
pub fn is_braced(d: usize, first: usize, last: usize, before: usize, next: usize) -> bool
    requires { (first ≤ 256) × (last ≤ 256) × (before ≤ 256) × (next ≤ 256) }
    ensures { result ≡ braced d first last before next }
{
    let table = CLASS;
    let a = byte_at(&table, first);
    let b = byte_at(&table, last);
    let c = byte_at(&table, before);
    let e = byte_at(&table, next);
    (a == 2)
        | (b == 2)
        | (first == d)
        | (last == d)
        | (c == 1)
        | (e == 1)
        | (before == d)
        | ((before == 47) & ((d == 47) | (d == 95)))
        | ((d == 95) & ((before == 35) | (before == 64) | (before == 58)))
        | ((d == 47) & (first == 42) & (last == 42))
}
