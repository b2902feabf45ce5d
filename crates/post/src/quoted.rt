// Quotes of the chain, and lists behind them, with what a call leaves.
ghost use Rattle.std.specs.Prelude.{◌≤◌, length};
ghost use Rattle.post.specs.Calls.{Quotable, NotedLeft};

use crate::laying::lay_quotes;
use crate::leave::leave;
use attribution_losses::loss::Counts;
use lending::answer::Converted;
use lending::lent::Refusal;
use post_steps::front::move_front;
use text::WorkAt;

// Quotes of the first k cells, which are within quotes' limits, then lists; the losses are listed, and the numbers of their records, which stand from
// `records` on, are moved to the front. On a refusal output, origins and loss bytes are zero.
pub fn write_noted(
    k: usize,
    records: WorkAt,
    losses: Counts,
    work: &mut [u8],
    numbers: &mut [u32],
    out: &mut [u8],
    origins: &mut [u32],
    loss_bytes: &mut [u8],
) -> Result<Converted, Refusal>
    requires { Quotable k records.0 losses.losses work.old numbers.old out.old origins.old × (losses.bytes ≤ length loss_bytes.old) }
    ensures { NotedLeft k records.0 losses work.old numbers.old out.old origins.old loss_bytes.old result numbers.new out.new origins.new loss_bytes.new }
{
    let laid = lay_quotes(k, records, losses.losses, work, numbers, out, origins);
    move_front(numbers, records.0, 5 * losses.losses);
    leave(laid, losses, out, origins, loss_bytes)
}
