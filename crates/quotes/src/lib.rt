// Quotes to Carve text (document 01, "Quotes").
#![tactic(auto)]

ghost use Rattle.std.specs.Prelude.{◌≡◌, ◌+◌, ◌≤◌, length, take};
ghost use Rattle.text.specs.Bounds.{text_most, Room};
ghost use Rattle.quote_tags.specs.Masks.{visible};
ghost use Rattle.quote_lines.specs.Lines.{tags};
ghost use Rattle.quote_blocks.specs.Quotes.{TooDeep};
ghost use Rattle.quote_losses.specs.Losses.{ListsLosses};
ghost use Rattle.quotes.specs.Calls.{limited, Called, Writable, Written, Converts, Numbered};

use lending::answer::{Converted, losses_by};
use lending::lent::{Lent, Refusal, check};
use losses::{Loss, fill};
use quote_lines::search::read_lines;
use quote_losses::loss::{Listed, list_losses};
use quote_steps::close::Areas;
use quote_steps::pass::quote_pass;
use text::WorkAt;
use text::source::set_cells;
use text::write::{lay_nothing, lay_part};

// Lists the losses of a text, with the lines of its own quotes, and counts how deep these stand: the numbers of the records before `base`.
fn list_own(
    text: &[u8],
    work: &mut [u8],
    numbers: &mut [u32],
    base: usize,
    loss_bytes: &mut [u8],
) -> Listed
    requires { (length text.now ≤ text_most) × ((length text.now ≤ length work.old) × (base + length text.now ≤ length numbers.old)) }
    ensures { ListsLosses text.now (tags 1 0 (visible text.now)) (take base numbers.old) loss_bytes.old (take base numbers.new) loss_bytes.new result.counts.losses result.counts.bytes × TooDeep text.now result.deep }
{
    let own = read_lines(text, work, &mut numbers[base..]);
    list_losses(
        text,
        &work[..own.size],
        numbers,
        base,
        own.count,
        loss_bytes,
    )
}

// The first of the refusals 5, 7, 8 that applies: the text is too deep, its losses are more than the records, or longer than the bytes.
pub fn refusal_of(deep: bool, many: bool, long: bool) -> Result<(), Refusal>
    ensures { result ≡ limited deep many long }
{
    if deep {
        Err(Refusal::TooDeep)
    } else if many {
        Err(Refusal::TooManyLosses)
    } else if long {
        Err(Refusal::LossBytesShort)
    } else {
        Ok(())
    }
}

// Writes a text within the limits, and returns the length of what is written.
fn write_quotes(
    text: &[u8],
    work: &mut [u8],
    numbers: &mut [u32],
    out: &mut [u8],
    origins: &mut [u32],
) -> Result<usize, Refusal>
    requires { Writable text.now work.old numbers.old out.old origins.old }
    ensures { Written text.now out.old origins.old result out.new origins.new }
{
    let n = text.len();
    let m = out.len();
    let areas = Areas {
        text: WorkAt(n),
        base: WorkAt(n),
        end: WorkAt(n + m),
        top: WorkAt(n + m + m),
    };
    set_cells(text, work, numbers, WorkAt(0));
    let passed = quote_pass(work, numbers, areas).ok_or(Refusal::NoSpace)?;
    lay_part(work, numbers, areas.base, passed.end, out, origins);
    Ok(passed.end.0 - n)
}

// Converts a text that is right, in memory that is large enough. A text has no more losses than bytes, so five numbers for each byte hold the
// numbers of their records; the pass has the work numbers behind them.
fn convert(
    text: &[u8],
    lent: usize,
    work: &mut [u8],
    numbers: &mut [u32],
    out: &mut [u8],
    origins: &mut [u32],
    loss_bytes: &mut [u8],
) -> Result<Converted, Refusal>
    requires { Room (length text.now) (length out.old) (length work.old) (length numbers.old) × (length out.old ≤ length origins.old) }
    ensures { Converts text.now lent out.old origins.old loss_bytes.old result out.new origins.new numbers.new loss_bytes.new }
{
    let base = 5 * text.len();
    let listed = list_own(text, work, numbers, base, loss_bytes);
    let losses = listed.counts.losses;
    let bytes = listed.counts.bytes;
    refusal_of(listed.deep, lent < losses, loss_bytes.len() < bytes)?;
    let size = write_quotes(text, work, &mut numbers[base..], out, origins)?;
    Ok(Converted {
        size,
        losses,
        bytes,
    })
}

// Quotes of a text, where `lent` records are lent: document 01's refusals 1 to 4, then 5, 7, 8, 6. The losses are listed as plain numbers.
fn convert_listed(
    text: &[u8],
    out: &mut [u8],
    origins: &mut [u32],
    lent: usize,
    loss_bytes: &mut [u8],
    work: &mut [u8],
    numbers: &mut [u32],
) -> Result<Converted, Refusal>
    ensures { Numbered text.now (length out.old) (length origins.old) lent (length loss_bytes.old) (length work.old) (length numbers.old) result out.new origins.new numbers.new loss_bytes.new }
{
    check(
        text,
        Lent {
            out: out.len(),
            origins: origins.len(),
            work: work.len(),
            numbers: numbers.len(),
            spans: None,
        },
    )?;
    convert(text, lent, work, numbers, out, origins, loss_bytes)
}

// Quotes of a text: document 01's refusals 1 to 4, then 5, 7, 8, 6. Where one applies, all that is lent for the result is zero.
pub fn convert_quotes(
    text: &[u8],
    out: &mut [u8],
    origins: &mut [u32],
    records: &mut [Loss],
    loss_bytes: &mut [u8],
    work: &mut [u8],
    numbers: &mut [u32],
) -> Result<Converted, Refusal>
    ensures { Called text.now (length out.old) (length origins.old) (length records.old) (length loss_bytes.old) (length work.old) (length numbers.old) result out.new origins.new records.new loss_bytes.new }
{
    let lent = records.len();
    let answer = convert_listed(text, out, origins, lent, loss_bytes, work, numbers);
    fill(records, numbers, losses_by(answer));
    match answer {
        Ok(done) => loss_bytes[done.bytes..].fill(0),
        Err(_) => {
            lay_nothing(out, origins);
            loss_bytes.fill(0);
        }
    }
    answer
}
