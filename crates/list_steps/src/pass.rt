// The list pass on cells that are handed on.
ghost use Rattle.std.specs.Prelude.{◌≡◌, cond, ◌≤◌, ◌<◌, length, drop};
ghost use Rattle.text.specs.Ascii.{is, to_first};
ghost use Rattle.text.specs.Bounds.{deep_most};
ghost use Rattle.text.specs.Cells.{cells};
ghost use Rattle.list_blocks.specs.Tags.{tokens, deeper};
ghost use Rattle.lending.specs.declared.lent.Refusal.TheVariants.{TooDeep, NoSpace};
ghost use Rattle.list_steps.specs.Standing.{rest_with, room_of, Spaced, PassRoom, PassedIn, ReadyIn, Finishes};

use crate::close::{Areas, Machine};
use crate::depth::depth_after;
use lending::lent::Refusal;
use list_blocks::tag::{Tag, tag_at};
use text::bounds::DEEP_MOST;
use text::scan::next_byte;
use text::{PostAt, WorkAt};

// Where the text ends, and its need.
#[derive(Clone, Copy)]
pub struct Passed {
    pub end: WorkAt,
    pub need: usize,
}

impl Machine {
    // Closes all open lists, innermost first, where at most `seen` cells stood in the contents before.
    fn finish(
        &mut self,
        seen: usize,
        areas: Areas,
        work: &mut [u8],
        numbers: &mut [u32],
    ) -> Result<Passed, Refusal>
        requires { ReadyIn work.old numbers.old areas self.old × (Spaced areas (length work.old) (length numbers.old) × (seen ≤ room_of areas)) }
        ensures { Finishes areas seen work.old numbers.old self.old work.new numbers.new result }
    {
        let mut most = seen;
        // A while: until the table is empty.
        while areas.table.0 < self.top.0 {
            most = most.max(self.at.0 - areas.base.0);
            self.close_list(areas, work, numbers);
            if areas.end.0 < self.at.0 {
                return Err(Refusal::NoSpace);
            }
        }
        Ok(Passed {
            end: self.at,
            need: most.max(self.at.0 - areas.base.0),
        })
    }
}

// How many cells are taken with the first of a text: the others of the tag that it begins with, or the text before the next `[`.
fn rest_of(tag: Tag, src: &[u8]) -> usize
    requires { 0 < length src.now }
    ensures { result ≡ rest_with tag (to_first (is "[") (drop 1 src.now)) }
{
    match tag {
        Tag::Plain => next_byte(src, PostAt(1), b'[').0 - 1,
        _ => tag.size(),
    }
}

// Whether an opener is met while as many lists are open as may be, where `open` are open before the text. A while, here and in the pass: the steps differ.
fn too_deep(src: &[u8], from: &[u32], open: usize) -> bool
    requires { (length src.now ≤ length from.now) × («open» ≤ deep_most) }
    ensures { result ≡ deeper «open» (tokens 0 (cells src.now from.now)) }
{
    let n = src.len();
    let mut depth = open;
    let mut i = 0;
    while i < n {
        let tag = tag_at(&src[i..n], &from[i..n]);
        let size = rest_of(tag, &src[i..n]);
        depth = depth_after(tag, depth);
        if DEEP_MOST < depth {
            return true;
        }
        i += size + 1;
    }
    false
}

// Why the cells of a text, where `open` lists are open before them, are no longer taken: refusal 5 comes before refusal 6.
fn stopped(src: &[u8], from: &[u32], open: usize) -> Refusal
    requires { (length src.now ≤ length from.now) × («open» ≤ deep_most) }
    ensures { result ≡ cond (deeper «open» (tokens 0 (cells src.now from.now))) TooDeep NoSpace }
{
    if too_deep(src, from, open) {
        Refusal::TooDeep
    } else {
        Refusal::NoSpace
    }
}

// The list pass on the cells from a up to e of the pair (work, numbers), which stand before the areas. The text stands at the front of the contents.
// Refused where its need is more than the room of the contents, and, first, where a list opener is met while as many lists are open as may be.
pub fn list_pass(
    a: WorkAt,
    e: WorkAt,
    areas: Areas,
    work: &mut [u8],
    numbers: &mut [u32],
) -> Result<Passed, Refusal>
    requires { PassRoom a.0 e.0 areas work.old numbers.old }
    ensures { PassedIn a.0 e.0 areas work.old numbers.old work.new numbers.new result }
{
    let mut st = Machine {
        at: areas.base,
        top: areas.table,
        first: areas.table,
        second: false,
    };
    let mut seen: usize = 0;
    let mut depth = 0;
    let mut i = a.0;
    while i < e.0 {
        let tag = tag_at(&work[i..e.0], &numbers[i..e.0]);
        let n = rest_of(tag, &work[i..e.0]);
        let deep = depth_after(tag, depth);
        if DEEP_MOST < deep {
            return Err(Refusal::TooDeep);
        }
        seen = seen.max(st.at.0 - areas.base.0);
        st.step(tag, n, WorkAt(i), areas, work, numbers);
        if areas.end.0 < st.at.0 {
            return Err(stopped(&work[i..e.0], &numbers[i..e.0], depth));
        }
        depth = deep;
        i += n + 1;
    }
    st.finish(seen, areas, work, numbers)
}
