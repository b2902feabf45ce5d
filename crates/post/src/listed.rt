// The last pass of the chain: lists, with what a call leaves.
ghost use Rattle.std.specs.Prelude.{◌≤◌, length, take};
ghost use Rattle.text.specs.Cells.{cells};
ghost use Rattle.post.specs.Calls.{Listable, ListsLeft, UnquotedEnd};

use crate::laying::{lay_lists, lay_unquoted};
use crate::leave::leave;
use attribution_losses::loss::Counts;
use lending::answer::Converted;
use lending::lent::Refusal;
use text::WorkAt;

// Lists of the cells from a up to e; the losses are listed. The contents stand behind these cells, then the block of a list, and the table of open
// lists from `table` on; what stands in the numbers before it stays. On a refusal output, origins and loss bytes are zero.
pub fn write_lists(
    a: WorkAt,
    e: WorkAt,
    table: WorkAt,
    losses: Counts,
    work: &mut [u8],
    numbers: &mut [u32],
    out: &mut [u8],
    origins: &mut [u32],
    loss_bytes: &mut [u8],
) -> Result<Converted, Refusal>
    requires { Listable a.0 e.0 table.0 work.old numbers.old out.old origins.old × (losses.bytes ≤ length loss_bytes.old) }
    ensures { ListsLeft a.0 e.0 table.0 losses work.old numbers.old out.old origins.old loss_bytes.old result numbers.new out.new origins.new loss_bytes.new }
{
    let laid = lay_lists(a, e, table, work, numbers, out, origins);
    leave(laid, losses, out, origins, loss_bytes)
}

// Lists of the first k cells, in which no quote stands: there are no losses. On a refusal output and origins are zero, and loss bytes in any case.
pub fn write_unquoted(
    k: usize,
    table: WorkAt,
    work: &mut [u8],
    numbers: &mut [u32],
    out: &mut [u8],
    origins: &mut [u32],
    loss_bytes: &mut [u8],
) -> Result<Converted, Refusal>
    requires { Listable 0 k table.0 work.old numbers.old out.old origins.old }
    ensures { UnquotedEnd (take k (cells work.old numbers.old)) out.old origins.old loss_bytes.old result out.new origins.new loss_bytes.new }
{
    let laid = lay_unquoted(k, table, work, numbers, out, origins);
    let none = Counts {
        losses: 0,
        bytes: 0,
    };
    leave(laid, none, out, origins, loss_bytes)
}
