// Tags to marks (document 01, "Tags to marks" and "Writing").
#![tactic(auto)]

ghost use Rattle.std.specs.Prelude.{length};
ghost use Rattle.marks.specs.Calls.{Attempted, Called};

use lending::lent::{Lent, Refusal, check};
use pass::write_marks;
use text::WorkAt;
use text::source::set_cells;
use text::write::{lay_nothing, lay_part};

pub mod pass;
pub mod untagged;

// The length of the text and the number of its spans.
#[derive(Clone, Copy, Debug, PartialEq, Eq)]
pub struct Marked {
    pub size: usize,
    pub spans: usize,
}

// Converts a text, and leaves anything at all in what is lent for the result where it refuses. The text's cells stand behind the area of the
// output's length, where its marks are written; output and origins are written at the end.
fn convert(
    text: &[u8],
    out: &mut [u8],
    origins: &mut [u32],
    spans: &mut [u32],
    work: &mut [u8],
    numbers: &mut [u32],
) -> Result<Marked, Refusal>
    ensures { Attempted text.now (length out.old) (length origins.old) (length spans.old) (length work.old) (length numbers.old) result out.new origins.new spans.new }
{
    check(
        text,
        Lent {
            out: out.len(),
            origins: origins.len(),
            work: work.len(),
            numbers: numbers.len(),
            spans: Some(spans.len()),
        },
    )?;
    let m = out.len();
    set_cells(text, work, numbers, WorkAt(m));
    let went = write_marks(work, numbers, text.len(), WorkAt(m), m, spans);
    if m < went.to.0 {
        return Err(Refusal::NoSpace);
    }
    lay_part(&work[..], &numbers[..], WorkAt(0), went.to, out, origins);
    spans[went.count..].fill(0);
    Ok(Marked {
        size: went.to.0,
        spans: went.count / 2,
    })
}

// Marks of a text: document 01's refusals 1 to 4, then 6. On a refusal all that is lent for the result is zero.
pub fn convert_marks(
    text: &[u8],
    out: &mut [u8],
    origins: &mut [u32],
    spans: &mut [u32],
    work: &mut [u8],
    numbers: &mut [u32],
) -> Result<Marked, Refusal>
    ensures { Called text.now (length out.old) (length origins.old) (length spans.old) (length work.old) (length numbers.old) result out.new origins.new spans.new }
{
    let answer = convert(text, out, origins, spans, work, numbers);
    if answer.is_err() {
        lay_nothing(out, origins);
        spans.fill(0);
    }
    answer
}
