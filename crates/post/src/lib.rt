// The whole post (document 01, "Whole post"): marks, then quotes, then lists.
#![tactic(auto)]

ghost use Rattle.std.specs.Prelude.{◌≡◌, ◌+◌, ◌*◌, ◌≤◌, length, take};
ghost use Rattle.text.specs.Bounds.{text_most, out_most, Room};
ghost use Rattle.text.specs.Cells.{cells};
ghost use Rattle.text.specs.Writes.{Holds};
ghost use Rattle.chain.specs.Post.{marks_text};
ghost use Rattle.post.specs.Calls.{Called, Copied, LostIn, Marked, Finishes, Numbered};

use laying::{lay_quotes, lay_unquoted};
use leave::refuse;
use lending::answer::{Converted, losses_by};
use lending::lent::{Lent, Refusal, check};
use losses::{Loss, fill};
use marks::pass::marks_pass;
use marks::untagged::is_untagged;
use post_steps::front::move_front;
use post_steps::plain::no_quotes;
use quote_lines::search::read_lines;
use quote_losses::loss::{Listed, list_losses};
use quotes::refusal_of;
use text::WorkAt;
use text::bounds::{numbers_size, work_size};
use text::source::set_cells;

mod laying;
pub mod leave;
pub mod listed;
pub mod quoted;

// Lists the losses of the marks text, the first k work bytes, with lines in the post, and counts how deep the quotes stand. The post is masked in the
// work bytes from m on; the numbers of the records stand at the front of the numbers, for five of which there is room for each byte of the post.
fn list_lost(
    post: &[u8],
    k: usize,
    m: usize,
    work: &mut [u8],
    numbers: &mut [u32],
    loss_bytes: &mut [u8],
) -> Listed
    requires { ((length post.now ≤ text_most) × ((m + length post.now ≤ length work.old) × (6 * length post.now ≤ length numbers.old))) × ((k ≤ m) × (m ≤ out_most)) }
    ensures { LostIn post.now (take k work.old) numbers.old loss_bytes.old numbers.new loss_bytes.new result × (take m work.new ≡ take m work.old) }
{
    let base = 5 * post.len();
    let own = read_lines(post, &mut work[m..], &mut numbers[base..]);
    let e = m + own.size;
    let memory = &work[..];
    list_losses(
        &memory[..k],
        &memory[m..e],
        numbers,
        base,
        own.count,
        loss_bytes,
    )
}

// Losses, quotes and lists of the marks text of a post, the first k cells, which are no more than the post has bytes. The numbers of the records stand
// behind the areas of the passes, and are moved to the front.
fn convert_quoted(
    post: &[u8],
    k: usize,
    lent: usize,
    work: &mut [u8],
    numbers: &mut [u32],
    out: &mut [u8],
    origins: &mut [u32],
    loss_bytes: &mut [u8],
) -> Result<Converted, Refusal>
    requires { Marked post.now k work.old numbers.old out.old origins.old }
    ensures { Finishes post.now (take k (cells work.old numbers.old)) lent out.old origins.old loss_bytes.old result out.new origins.new numbers.new loss_bytes.new }
{
    let m = out.len();
    let first = work_size(post.len(), m);
    let lost = list_lost(post, k, m, work, &mut numbers[first..], loss_bytes);
    let losses = lost.counts.losses;
    let bytes = lost.counts.bytes;
    refusal_of(lost.deep, lent < losses, loss_bytes.len() < bytes)?;
    let size = lay_quotes(k, WorkAt(first), losses, work, numbers, out, origins)?;
    move_front(numbers, first, 5 * losses);
    Ok(Converted {
        size,
        losses,
        bytes,
    })
}

// The same, for any marks text. Where no quote stands in it there are no losses, and no line of the post is looked for.
fn convert_marked(
    post: &[u8],
    k: usize,
    lent: usize,
    work: &mut [u8],
    numbers: &mut [u32],
    out: &mut [u8],
    origins: &mut [u32],
    loss_bytes: &mut [u8],
) -> Result<Converted, Refusal>
    requires { Marked post.now k work.old numbers.old out.old origins.old }
    ensures { Finishes post.now (take k (cells work.old numbers.old)) lent out.old origins.old loss_bytes.old result out.new origins.new numbers.new loss_bytes.new }
{
    if no_quotes(&work[..k]) {
        let table = WorkAt(work_size(post.len(), out.len()));
        let size = lay_unquoted(k, table, work, numbers, out, origins)?;
        return Ok(Converted {
            size,
            losses: 0,
            bytes: 0,
        });
    }
    convert_quoted(post, k, lent, work, numbers, out, origins, loss_bytes)
}

// Marks of a post, written into the first m cells; the place behind them, past m where they do not fit. A post without `[` that fits is its own.
fn mark_post(post: &[u8], m: usize, work: &mut [u8], numbers: &mut [u32]) -> WorkAt
    requires { Room (length post.now) m (length work.old) (length numbers.old) }
    ensures { Holds (take m (cells work.new numbers.new)) result.0 (marks_text post.now) }
{
    let n = post.len();
    if n <= m && is_untagged(post) {
        set_cells(post, work, numbers, WorkAt(0));
        return WorkAt(n);
    }
    set_cells(post, work, numbers, WorkAt(m));
    marks_pass(work, numbers, n, WorkAt(m), m)
}

// Converts a post, where `lent` records are lent; nothing is cleared. The losses are listed as plain numbers.
fn convert(
    post: &[u8],
    out: &mut [u8],
    origins: &mut [u32],
    lent: usize,
    loss_bytes: &mut [u8],
    work: &mut [u8],
    numbers: &mut [u32],
) -> Result<Converted, Refusal>
    ensures { Numbered post.now (length out.old) (length origins.old) lent (length loss_bytes.old) (length work.old) (length numbers.old) result out.new origins.new numbers.new loss_bytes.new }
{
    let m = out.len();
    check(
        post,
        Lent {
            out: m,
            origins: origins.len(),
            work: work.len(),
            numbers: numbers.len(),
            spans: None,
        },
    )?;
    // More numbers may be lent than a `u32` can count.
    let numbers = &mut numbers[..numbers_size(post.len(), m)];
    let k = mark_post(post, m, work, numbers).0;
    if m < k {
        return Err(Refusal::NoSpace);
    }
    convert_marked(post, k, lent, work, numbers, out, origins, loss_bytes)
}

// A whole post: document 01's refusals 1 to 4, then marks 6, quotes 5, 7, 8, 6, lists 5, 6. Where one applies, all that is lent for the result is zero.
// Demand 3 is the second part of the promise.
pub fn bbcode_to_carve(
    post: &[u8],
    out: &mut [u8],
    origins: &mut [u32],
    records: &mut [Loss],
    loss_bytes: &mut [u8],
    work: &mut [u8],
    numbers: &mut [u32],
) -> Result<Converted, Refusal>
    ensures { Called post.now (length out.old) (length origins.old) (length records.old) (length loss_bytes.old) (length work.old) (length numbers.old) result out.new origins.new records.new loss_bytes.new × Copied post.now result out.new origins.new }
{
    let lent = records.len();
    let answer = convert(post, out, origins, lent, loss_bytes, work, numbers);
    fill(records, numbers, losses_by(answer));
    match answer {
        Ok(done) => {
            loss_bytes[done.bytes..].fill(0);
            answer
        }
        Err(refusal) => refuse(refusal, out, origins, loss_bytes),
    }
}
