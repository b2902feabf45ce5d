// What the program `thread` prints of a post: the listing of the converted post, or why there is none.
#![tactic(auto)]

ghost use Rattle.std.specs.Prelude.{◌≡◌, ◌≤◌, length};
ghost use Rattle.text.specs.Bounds.{out_most, number_most};
ghost use Rattle.listing.specs.Listing.{Adds, Lists};
ghost use Rattle.post_listing.specs.Prints.{answer_listing, post_listing, thread_listing};

use lending::answer::Converted;
use lending::lent::Refusal;
use listing::{put_number, write_listing};
use losses::Loss;
use post::bbcode_to_carve;
use text::writer::Writer;
use text::{TextAt, WorkAt};

// The longest post that the program takes.
pub const POST_MOST: usize = 1024;

// More than a listing of a post can have.
pub const LISTING_MOST: usize = 16384;

// What document 01 has the program lend, and as much work memory as a post of that length then asks for.
const OUT_LENT: usize = 2048;

const RECORDS_LENT: usize = 64;

const LOSS_BYTES_LENT: usize = 1024;

const WORK_LENT: usize = POST_MOST + 3 * OUT_LENT;

const NUMBERS_LENT: usize = 8 * POST_MOST + 3 * OUT_LENT + 64;

// Lists what a conversion answers and leaves in the lent slices.
fn put_answer(
    to: &mut Writer,
    answer: Result<Converted, Refusal>,
    out: &[u8],
    origins: &[u32],
    records: &[Loss],
    loss_bytes: &[u8],
)
    requires same_length { length out.now ≡ length origins.now }
    requires out_fits { length out.now ≤ out_most }
    requires losses_fit { length records.now ≤ number_most }
    ensures { Lists to.old to.new (answer_listing answer out.now origins.now records.now loss_bytes.now) }
{
    match answer {
        Ok(done) => {
            let size = done.size.min(out.len());
            let losses = done.losses.min(records.len());
            let bytes = done.bytes.min(loss_bytes.len());
            write_listing(
                to,
                &out[..size],
                &origins[..size],
                &records[..losses],
                &loss_bytes[..bytes],
            );
        }
        Err(refusal) => put_number(to, b"result=", refusal.into()),
    }
}

// Converts a post in lent memory and lists it.
fn list_post(
    to: &mut Writer,
    post: &[u8],
    out: &mut [u8],
    origins: &mut [u32],
    records: &mut [Loss],
    loss_bytes: &mut [u8],
    work: &mut [u8],
    numbers: &mut [u32],
)
    requires same_length { length out.old ≡ length origins.old }
    requires out_fits { length out.old ≤ out_most }
    requires records_lent { length records.old ≡ 64 }
    ensures { Lists to.old to.new (post_listing post.now (length out.old) (length origins.old) (length loss_bytes.old) (length work.old) (length numbers.old)) }
{
    let answer = if POST_MOST < post.len() {
        Err(Refusal::TextTooLong)
    } else {
        bbcode_to_carve(post, out, origins, records, loss_bytes, work, numbers)
    };
    put_answer(to, answer, out, origins, records, loss_bytes);
}

// Converts a post in the memory that document 01 has the program lend, and lists it.
pub fn list_thread(post: &[u8], buf: &mut [u8], nums: &mut [u32]) -> TextAt
    ensures { Adds buf.old nums.old 0 buf.new nums.new result.0 (thread_listing post.now) }
{
    let mut out = [0u8; OUT_LENT];
    let mut origins = [0u32; OUT_LENT];
    let mut records = [Loss::default(); RECORDS_LENT];
    let mut loss_bytes = [0u8; LOSS_BYTES_LENT];
    let mut work = [0u8; WORK_LENT];
    let mut numbers = [0u32; NUMBERS_LENT];
    let end = buf.len().min(nums.len());
    let mut to = Writer {
        bytes: buf,
        numbers: nums,
        at: WorkAt(0),
        end,
    };
    list_post(
        &mut to,
        post,
        &mut out,
        &mut origins,
        &mut records,
        &mut loss_bytes,
        &mut work,
        &mut numbers,
    );
    TextAt(to.at.0)
}
