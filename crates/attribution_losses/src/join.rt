// The joined texts, where they make the name: written behind the attribution in one slice.
ghost use Rattle.std.specs.Prelude.{cond, [], ◌+◌, ◌-◌, ◌*◌, ◌≤◌, ◌<◌, eqb, ltb, length};
ghost use Rattle.attribution_reading.specs.Places.{bytes};
ghost use Rattle.attribution_losses.specs.Captions.{added, name_texts};
ghost use Rattle.attribution_losses.specs.Lists.{Puts};

use crate::put::{put, put_within};
use attribution_reading::facts::{is_name, leading_id};
use attribution_reading::reader::read_part;
use attribution_reading::scan::Extent;

// Puts one text more behind the joined texts that begin at `start`; a field, which has a key, adds nothing.
fn put_more(work: &mut [u8], keylen: usize, text: Extent, start: usize, at: usize) -> usize
    requires { (text.from + text.size ≤ at) × ((text.from + text.size ≤ length work.old) × (at + 1 + text.size < 4294967296)) }
    ensures { Puts work.old at work.new result (added (ltb start at) (cond (eqb keylen 0) (bytes work.old text.from text.size) [])) }
{
    if keylen != 0 || text.size == 0 {
        return at;
    }
    if start < at {
        let e = put(b" ", work, at);
        return put_within(work, text, e);
    }
    put_within(work, text, at)
}

// Joins the texts of the attribution that stands from a up to e, from `at` on; none where a name field stands among them. A place past the
// end says that they did not fit.
pub fn join_texts(work: &mut [u8], a: usize, e: usize, at: usize) -> usize
    requires { ((a ≤ e) × ((e ≤ at) × (e ≤ length work.old))) × (at + 2 * (e - a) < 4294967296) }
    ensures { Puts work.old at work.new result (name_texts (bytes work.old a (e - a))) }
{
    let lead = leading_id(&work[a..e]);
    let mut pos = lead.next;
    let mut to = at;
    // A while: parts differ in size.
    while pos < e - a {
        let p = read_part(&work[a..e], pos);
        if is_name(&work[a..e], p) {
            return at;
        }
        let text = Extent {
            from: a + p.value.from,
            size: p.value.size,
        };
        to = put_more(work, p.key.size, text, at, to);
        pos = p.next;
    }
    to
}
