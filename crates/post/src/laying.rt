// Quotes and lists of the chain, laid out. On a refusal output and origins stay as they are.
ghost use Rattle.std.specs.Prelude.{length, take};
ghost use Rattle.text.specs.Cells.{cells};
ghost use Rattle.post.specs.Calls.{Listable, ListsLay, ListsLaid, Quotable, QuotesLaid};

use lending::lent::Refusal;
use list_steps::close::Areas as ListAreas;
use list_steps::pass::list_pass;
use post_steps::plain::no_lists;
use quote_steps::close::Areas as QuoteAreas;
use quote_steps::pass::quote_pass;
use text::WorkAt;
use text::write::lay_part;

// Lists of the cells from a up to e, laid out, and how long the text is. The contents stand behind these cells, then the block of a list, and the table of
// open lists from `table` on; what stands in the numbers before it stays.
pub fn lay_lists(
    a: WorkAt,
    e: WorkAt,
    table: WorkAt,
    work: &mut [u8],
    numbers: &mut [u32],
    out: &mut [u8],
    origins: &mut [u32],
) -> Result<usize, Refusal>
    requires { Listable a.0 e.0 table.0 work.old numbers.old out.old origins.old }
    ensures { ListsLaid a.0 e.0 table.0 work.old numbers.old out.old origins.old result numbers.new out.new origins.new }
{
    let areas = ListAreas {
        base: e,
        end: WorkAt(e.0 + out.len()),
        table,
    };
    let passed = list_pass(a, e, areas, work, numbers)?;
    lay_part(work, numbers, e, passed.end, out, origins);
    Ok(passed.end.0 - e.0)
}

// Lists of the first k cells, in which no quote stands. Where lists leaves them as they are, they are laid out where they stand.
pub fn lay_unquoted(
    k: usize,
    table: WorkAt,
    work: &mut [u8],
    numbers: &mut [u32],
    out: &mut [u8],
    origins: &mut [u32],
) -> Result<usize, Refusal>
    requires { Listable 0 k table.0 work.old numbers.old out.old origins.old }
    ensures { ListsLay (take k (cells work.old numbers.old)) out.old origins.old result out.new origins.new }
{
    if no_lists(&work[..k]) {
        lay_part(work, numbers, WorkAt(0), WorkAt(k), out, origins);
        return Ok(k);
    }
    lay_lists(WorkAt(0), WorkAt(k), table, work, numbers, out, origins)
}

// Quotes of the first k cells, which are within quotes' limits, then lists, laid out, and how long the text is. The numbers of the records of the losses stand
// from `records` on, and stay.
pub fn lay_quotes(
    k: usize,
    records: WorkAt,
    losses: usize,
    work: &mut [u8],
    numbers: &mut [u32],
    out: &mut [u8],
    origins: &mut [u32],
) -> Result<usize, Refusal>
    requires { Quotable k records.0 losses work.old numbers.old out.old origins.old }
    ensures { QuotesLaid k records.0 losses work.old numbers.old out.old origins.old result numbers.new out.new origins.new }
{
    let m = out.len();
    let areas = QuoteAreas {
        text: WorkAt(k),
        base: WorkAt(k),
        end: WorkAt(k + m),
        top: WorkAt(k + m + m),
    };
    let passed = quote_pass(work, &mut numbers[..records.0], areas).ok_or(Refusal::NoSpace)?;
    let table = WorkAt(records.0 + 5 * losses);
    lay_lists(areas.base, passed.end, table, work, numbers, out, origins)
}
