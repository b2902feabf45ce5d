// The items of a text of n bytes in work numbers, behind the codes of its cells: the bounds of item j's bytes at n + j and n + j + 1, its code at
// 2n + 2 + j, and from 3n + 3 on a stack. Codes: 0 text, 1 a tag that vanishes, 2 the end of a mark's slot, 4 to 7 the start of a mark (by
// kind), 8 to 11 an opener of which it is not known yet whether it is closed.
ghost use Rattle.std.specs.Prelude.{◌≡◌, [], ◌+◌, ◌*◌, ◌≤◌, ◌<◌, length};
ghost use Rattle.text.specs.Bounds.{text_most};
ghost use Rattle.mark_tags.specs.Marks.{ends, no-kinds};
ghost use Rattle.mark_tags.specs.Flat.{numbered_tag, code_of, width_of, stack_of, with_item, Stacked, Tagged, settled, SettledItem, merged, MergedItem, Recodes, Itemed};

use mark_tags::kind::Kind;
use mark_tags::tags::tag_at;
use text::PostAt;
use text::scan::next_byte;

// Item j, which ends at `end`.
fn put_item(nums: &mut [u32], n: usize, j: usize, end: usize, code: u32)
    requires { ((j ≤ n) × (end ≤ n)) × ((n ≤ text_most) × (4 * n + 4 ≤ length nums.old)) }
    ensures { nums.new ≡ with_item nums.old n j end code }
{
    nums[n + j + 1] = end as u32;
    nums[2 * n + 2 + j] = code;
}

// The code of a tag's item: a closer ends the innermost of the open marks if the kinds are equal, else it only vanishes.
fn code_of(nums: &[u32], n: usize, depth: usize, tag: u32) -> u32
    requires { (depth ≤ n + 1) × ((n ≤ text_most) × (4 * n + 4 ≤ length nums.now)) }
    ensures { result ≡ code_of tag (ends (numbered_tag tag) (stack_of nums.now n depth)) }
{
    if tag < 12 {
        tag
    } else if depth == 0 {
        1
    } else if nums[3 * n + 3 + (depth - 1)] % 4 == tag % 4 {
        2
    } else {
        1
    }
}

fn width_of(tag: u32) -> usize
    ensures { result ≡ width_of tag }
{
    if tag < 12 { 3 } else { 4 }
}

// The stack of open kinds after a tag with its item's code.
fn stack_after(nums: &mut [u32], n: usize, depth: usize, tag: u32, code: u32) -> usize
    requires { ((depth ≤ n) × (code ≡ code_of tag (ends (numbered_tag tag) (stack_of nums.old n depth)))) × ((n ≤ text_most) × (4 * n + 4 ≤ length nums.old)) }
    ensures { Stacked nums.old nums.new n depth tag result }
{
    if tag < 12 {
        nums[3 * n + 3 + depth] = tag;
        depth + 1
    } else if code == 2 {
        depth - 1
    } else {
        depth
    }
}

// Reads the tags of a text. The number of items.
pub fn read_tags(text: &[u8], nums: &mut [u32]) -> usize
    requires { (length text.now ≤ text_most) × (4 * length text.now + 4 ≤ length nums.old) }
    ensures { Tagged text.now nums.old nums.new result }
{
    let n = text.len();
    nums[n] = 0;
    let mut i = 0;
    let mut j = 0;
    let mut depth = 0;
    // A while: the steps differ.
    while i < n {
        let tag = tag_at(text, i);
        if tag == 0 {
            i = next_byte(text, PostAt(i + 1), b'[').0;
        } else {
            let code = code_of(&nums[..], n, depth, tag);
            let w = width_of(tag);
            put_item(nums, n, j, i, 0);
            put_item(nums, n, j + 1, i + w, code);
            depth = stack_after(nums, n, depth, tag, code);
            j += 2;
            i += w;
        }
    }
    put_item(nums, n, j, n, 0);
    j + 1
}

// Settles item j: an opener is text if no mark that is closed behind it begins there.
fn settle_item(nums: &mut [u32], n: usize, j: usize, closes: usize) -> usize
    requires { ((j ≤ n) × (closes ≤ n + 1)) × ((n ≤ text_most) × (4 * n + 4 ≤ length nums.old)) }
    ensures { SettledItem nums.old nums.new n j closes result }
{
    let code = nums[2 * n + 2 + j];
    if code == 2 {
        closes + 1
    } else if code < 8 {
        closes
    } else if closes == 0 {
        nums[2 * n + 2 + j] = 0;
        0
    } else {
        nums[2 * n + 2 + j] = code % 4 + 4;
        closes - 1
    }
}

// Settles k items, from the right.
pub fn settle(nums: &mut [u32], n: usize, k: usize)
    requires { (k ≤ n + 1) × ((n ≤ text_most) × (4 * n + 4 ≤ length nums.old)) }
    ensures { Recodes (λ f. (settled f).flat) n k nums.old nums.new }
{
    let mut closes = 0;
    for j in (0..k).rev() {
        closes = settle_item(nums, n, j, closes);
    }
}

// The kinds open in a slot, as a mask, and how many marks are open, merged ones too.
#[derive(Clone, Copy)]
pub struct Open {
    pub mask: u32,
    pub depth: usize,
}

// Merges item j: a mark inside one of its own kind vanishes.
fn merge_item(nums: &mut [u32], n: usize, j: usize, state: Open) -> Open
    requires { ((j ≤ n) × ((state.depth ≤ j) × (state.mask < 16))) × ((n ≤ text_most) × (4 * n + 4 ≤ length nums.old)) }
    ensures { MergedItem nums.old nums.new n j state.mask state.depth result.mask result.depth }
{
    let mask = state.mask;
    let depth = state.depth;
    let code = nums[2 * n + 2 + j];
    if code == 2 {
        if depth == 0 {
            nums[2 * n + 2 + j] = 1;
            return state;
        }
        let outer = nums[3 * n + 3 + (depth - 1)];
        if 16 <= outer {
            nums[2 * n + 2 + j] = 1;
            return Open {
                mask: outer % 16,
                depth: depth - 1,
            };
        }
        return Open {
            mask: outer % 16,
            depth: depth - 1,
        };
    }
    if code < 4 {
        return state;
    }
    if 8 <= code {
        return state;
    }
    let bit = Kind::of_code(code).bit();
    if mask & bit == 0 {
        nums[3 * n + 3 + depth] = mask;
        return Open {
            mask: mask | bit,
            depth: depth + 1,
        };
    }
    nums[3 * n + 3 + depth] = mask + 16;
    nums[2 * n + 2 + j] = 1;
    Open {
        mask: mask | bit,
        depth: depth + 1,
    }
}

// Merges k items, from the left.
pub fn merge(nums: &mut [u32], n: usize, k: usize)
    requires { (k ≤ n + 1) × ((n ≤ text_most) × (4 * n + 4 ≤ length nums.old)) }
    ensures { Recodes (λ f. merged f no-kinds []) n k nums.old nums.new }
{
    let mut state = Open { mask: 0, depth: 0 };
    for j in 0..k {
        state = merge_item(nums, n, j, state);
    }
}

// Reads a text's items: its tags, which openers are closed, which marks are merged. The number of items.
pub fn read_items(text: &[u8], nums: &mut [u32]) -> usize
    requires { (length text.now ≤ text_most) × (4 * length text.now + 4 ≤ length nums.old) }
    ensures { Itemed text.now nums.old nums.new result }
{
    let k = read_tags(text, nums);
    settle(nums, text.len(), k);
    merge(nums, text.len(), k);
    k
}
