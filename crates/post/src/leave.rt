// What a call leaves in the lent slices: the finished text, or nothing.
ghost use Rattle.std.specs.Prelude.{◌≡◌, [], ◌+◌, ◌-◌, ◌≤◌, length, Err};
ghost use Rattle.text.specs.Cells.{cells, part};
ghost use Rattle.quotes.specs.Calls.{Filled};
ghost use Rattle.post.specs.Calls.{LaysText, Leaves};

use attribution_losses::loss::Counts;
use lending::answer::Converted;
use lending::lent::Refusal;
use text::WorkAt;
use text::write::{lay_nothing, lay_part};

// A refusal: output, origins and loss bytes are zero.
pub fn refuse(
    refusal: Refusal,
    out: &mut [u8],
    origins: &mut [u32],
    loss_bytes: &mut [u8],
) -> Result<Converted, Refusal>
    ensures { (result ≡ Err refusal) × Filled [] [] (length out.old) (length origins.old) (length loss_bytes.old) out.new origins.new loss_bytes.new }
{
    lay_nothing(out, origins);
    loss_bytes.fill(0);
    Err(refusal)
}

// A text of this length that is laid out already, with its losses; or a refusal.
pub fn leave(
    laid: Result<usize, Refusal>,
    losses: Counts,
    out: &mut [u8],
    origins: &mut [u32],
    loss_bytes: &mut [u8],
) -> Result<Converted, Refusal>
    ensures { Leaves laid losses out.old origins.old loss_bytes.old result out.new origins.new loss_bytes.new }
{
    match laid {
        Ok(size) => {
            let from = losses.bytes.min(loss_bytes.len());
            loss_bytes[from..].fill(0);
            Ok(Converted {
                size,
                losses: losses.losses,
                bytes: losses.bytes,
            })
        }
        Err(refusal) => refuse(refusal, out, origins, loss_bytes),
    }
}

// Lays out the finished cells from a up to e; the losses are listed.
pub fn lay_text(
    work: &[u8],
    numbers: &[u32],
    a: WorkAt,
    e: WorkAt,
    losses: Counts,
    out: &mut [u8],
    origins: &mut [u32],
    loss_bytes: &mut [u8],
) -> Result<Converted, Refusal>
    requires { ((a.0 ≤ e.0) × ((e.0 ≤ length work.now) × (e.0 ≤ length numbers.now))) × ((e.0 ≤ a.0 + length out.old) × (e.0 ≤ a.0 + length origins.old)) }
    ensures { LaysText (part a.0 e.0 (cells work.now numbers.now)) (e.0 - a.0) losses out.old origins.old loss_bytes.old result out.new origins.new loss_bytes.new }
{
    lay_part(work, numbers, a, e, out, origins);
    leave(Ok(e.0 - a.0), losses, out, origins, loss_bytes)
}
