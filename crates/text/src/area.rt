// Writing into an area of a longer pair of slices: from a place up to a place `end`; nothing before and nothing behind it changes. What stands
// before or behind the area is a source: its cells can be appended too.
ghost use Rattle.std.specs.Prelude.{◌≡◌, [], ◌∷◌, ◌+◌, ◌-◌, ◌≤◌, ◌<◌, length};
ghost use Rattle.std.specs.List.{copy_within};
ghost use Rattle.text.specs.Cells.{cell, cells, part, written, sign};
ghost use Rattle.text.specs.Writes.{AppendsIn, Apart, BlocksFit, BlocksPasted, cut};

use crate::blank::place_at;
use crate::block::within;
use crate::bounds::FULL;
use crate::cell::RULE_SIGN;
use crate::{PostAt, WorkAt};

// Appends one cell.
pub fn put_in(buf: &mut [u8], nums: &mut [u32], end: usize, at: WorkAt, b: u8, x: u32) -> WorkAt
    requires { (end ≤ length buf.old) × (end ≤ length nums.old) }
    ensures { AppendsIn buf.old nums.old end at.0 buf.new nums.new result.0 (cell b x ∷ []) }
{
    if at.0 < end {
        buf[at.0] = b;
        nums[at.0] = x;
        WorkAt(at.0 + 1)
    } else {
        WorkAt(FULL)
    }
}

// Appends a byte that a rule writes and that is not blank.
pub fn put_sign_in(buf: &mut [u8], nums: &mut [u32], end: usize, at: WorkAt, b: u8) -> WorkAt
    requires { (end ≤ length buf.old) × (end ≤ length nums.old) }
    ensures { AppendsIn buf.old nums.old end at.0 buf.new nums.new result.0 (sign b ∷ []) }
{
    put_in(buf, nums, end, at, b, RULE_SIGN)
}

// Appends a text that a rule writes.
pub fn put_text_in(src: &[u8], buf: &mut [u8], nums: &mut [u32], end: usize, at: WorkAt) -> WorkAt
    requires { (end ≤ length buf.old) × (end ≤ length nums.old) }
    ensures { AppendsIn buf.old nums.old end at.0 buf.new nums.new result.0 (written src.now) }
{
    let mut more: usize = 0;
    let mut to = at;
    for i in 0..src.len() {
        let p = place_at(src, PostAt(i), more);
        to = put_in(buf, nums, end, to, src[i], p.blank);
        more = p.more;
    }
    to
}

// Appends the bytes from a up to e of the same slice, which stand outside of the area, as a text that a rule writes.
pub fn put_within(
    buf: &mut [u8],
    nums: &mut [u32],
    a: usize,
    e: usize,
    end: usize,
    at: WorkAt,
) -> WorkAt
    requires { ((e ≤ length buf.old) × Apart a e at.0 end) × ((end ≤ length buf.old) × (end ≤ length nums.old)) }
    ensures { AppendsIn buf.old nums.old end at.0 buf.new nums.new result.0 (written (cut a e buf.old)) }
{
    let mut more: usize = 0;
    let mut to = at;
    for i in a..e {
        let p = place_at(&buf[..e], PostAt(i), more);
        let b = buf[i];
        to = put_in(buf, nums, end, to, b, p.blank);
        more = p.more;
    }
    to
}

// Copies the cells from a up to e to a place on, one by one: where no block has room. Out of line, so that what is common stays short.
#[inline(never)]
fn copy_short(buf: &mut [u8], nums: &mut [u32], a: usize, e: usize, at: usize)
    requires { ((a ≤ e) × ((e ≤ length buf.old) × (e ≤ length nums.old))) × ((at + (e - a) ≤ length buf.old) × (at + (e - a) ≤ length nums.old)) }
    ensures { (buf.new ≡ copy_within buf.old a e at) × (nums.new ≡ copy_within nums.old a e at) }
{
    buf.copy_within(a..e, at);
    nums.copy_within(a..e, at);
}

// Copies the cells from a up to e to a place on, in blocks, by a call: where what is around it stands in its callers.
#[inline(never)]
fn within_called(buf: &mut [u8], nums: &mut [u32], a: usize, e: usize, at: usize)
    requires { BlocksFit buf.old nums.old a e at }
    ensures { BlocksPasted buf.old nums.old a e at buf.new nums.new }
{
    within(buf, nums, a, e, at);
}

// The same, by a call or not.
#[inline(always)]
fn copy_blocks(buf: &mut [u8], nums: &mut [u32], a: usize, e: usize, at: usize, called: bool)
    requires { BlocksFit buf.old nums.old a e at }
    ensures { BlocksPasted buf.old nums.old a e at buf.new nums.new }
{
    if called {
        within_called(buf, nums, a, e, at);
    } else {
        within(buf, nums, a, e, at);
    }
}

// Appends the cells from a up to e of the same pair of slices: in blocks, where 15 cells more can be read behind them (`spare` can) and written.
#[inline(always)]
fn append_run(
    buf: &mut [u8],
    nums: &mut [u32],
    a: usize,
    e: usize,
    spare: usize,
    end: usize,
    at: WorkAt,
    called: bool,
) -> WorkAt
    requires inside { ((a ≤ e) × ((e ≤ length buf.old) × (e ≤ length nums.old))) × ((end ≤ length buf.old) × (end ≤ length nums.old)) }
    requires spare { at.0 < end → 15 ≤ spare → ((e + 15 ≤ length buf.old) × (e + 15 ≤ length nums.old)) × Apart a (e + 15) at.0 end }
    ensures { AppendsIn buf.old nums.old end at.0 buf.new nums.new result.0 (part a e (cells buf.old nums.old)) }
{
    let n = e - a;
    let room = end.saturating_sub(at.0);
    if room < n {
        return WorkAt(FULL);
    }
    if 15 <= spare.min(room - n) {
        copy_blocks(buf, nums, a, e, at.0, called);
    } else if 0 < n {
        copy_short(buf, nums, a, e, at.0);
    }
    WorkAt(at.0 + n)
}

// Appends the cells from a up to e of the same pair of slices, which stand before the place.
pub fn copy_within(
    buf: &mut [u8],
    nums: &mut [u32],
    a: WorkAt,
    e: WorkAt,
    end: usize,
    at: WorkAt,
) -> WorkAt
    requires { ((a.0 ≤ e.0) × (e.0 ≤ at.0)) × ((e.0 ≤ end) × ((end ≤ length buf.old) × (end ≤ length nums.old))) }
    ensures { AppendsIn buf.old nums.old end at.0 buf.new nums.new result.0 (part a.0 e.0 (cells buf.old nums.old)) }
{
    append_run(buf, nums, a.0, e.0, at.0 - e.0, end, at, false)
}

// Appends the cells from a up to e of the same pair of slices, which stand behind the area.
pub fn copy_back(
    buf: &mut [u8],
    nums: &mut [u32],
    a: WorkAt,
    e: WorkAt,
    end: usize,
    at: WorkAt,
) -> WorkAt
    requires { ((a.0 ≤ e.0) × (end ≤ a.0)) × ((e.0 ≤ length buf.old) × (e.0 ≤ length nums.old)) }
    ensures { AppendsIn buf.old nums.old end at.0 buf.new nums.new result.0 (part a.0 e.0 (cells buf.old nums.old)) }
{
    let spare = buf.len().min(nums.len()) - e.0;
    append_run(buf, nums, a.0, e.0, spare, end, at, false)
}

// The same as a part of its caller, with a call for the blocks: text pieces are short and many.
#[inline(always)]
pub fn copy_piece(
    buf: &mut [u8],
    nums: &mut [u32],
    a: WorkAt,
    e: WorkAt,
    end: usize,
    at: WorkAt,
) -> WorkAt
    requires { ((a.0 ≤ e.0) × (end ≤ a.0)) × ((e.0 ≤ length buf.old) × (e.0 ≤ length nums.old)) }
    ensures { AppendsIn buf.old nums.old end at.0 buf.new nums.new result.0 (part a.0 e.0 (cells buf.old nums.old)) }
{
    let spare = buf.len().min(nums.len()) - e.0;
    append_run(buf, nums, a.0, e.0, spare, end, at, true)
}
