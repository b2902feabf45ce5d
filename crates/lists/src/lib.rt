// Lists to Carve text (document 01, "Lists").
#![tactic(auto)]

ghost use Rattle.std.specs.Prelude.{length};
ghost use Rattle.lists.specs.Calls.{Called, Converted};

use lending::lent::{Lent, Refusal, check};
use list_steps::close::Areas;
use list_steps::pass::list_pass;
use text::WorkAt;
use text::bounds::numbers_size;
use text::source::set_cells;
use text::write::{lay_nothing, lay_part};

// Lists of a text; what is lent for the result stays as it is where the call is turned back. The text stands at the front of the work memory, and the areas of
// the pass behind it.
fn convert(
    text: &[u8],
    out: &mut [u8],
    origins: &mut [u32],
    work: &mut [u8],
    numbers: &mut [u32],
) -> Result<usize, Refusal>
    ensures { Converted text.now (length out.old) (length origins.old) (length work.old) (length numbers.old) result out.new origins.new }
{
    let n = text.len();
    let m = out.len();
    check(
        text,
        Lent {
            out: m,
            origins: origins.len(),
            work: work.len(),
            numbers: numbers.len(),
            spans: None,
        },
    )?;
    // More numbers may be lent than a `u32` can count.
    let numbers = &mut numbers[..numbers_size(n, m)];
    set_cells(text, work, numbers, WorkAt(0));
    let areas = Areas {
        base: WorkAt(n),
        end: WorkAt(n + m),
        table: WorkAt(n + 2 * m),
    };
    let passed = list_pass(WorkAt(0), areas.base, areas, work, numbers)?;
    lay_part(work, numbers, areas.base, passed.end, out, origins);
    Ok(passed.end.0 - n)
}

// Lists of a text: document 01's refusals 1 to 4, then 5, 6. Where one applies, all that is lent for the result is zero.
pub fn convert_lists(
    text: &[u8],
    out: &mut [u8],
    origins: &mut [u32],
    work: &mut [u8],
    numbers: &mut [u32],
) -> Result<usize, Refusal>
    ensures { Called text.now (length out.old) (length origins.old) (length work.old) (length numbers.old) result out.new origins.new }
{
    let converted = convert(text, out, origins, work, numbers);
    if converted.is_err() {
        lay_nothing(out, origins);
    }
    converted
}
