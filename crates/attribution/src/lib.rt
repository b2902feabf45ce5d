// Attributions: the name, the caption, and the operation on an attribution alone (document 01, "Attributions").
#![tactic(auto)]

ghost use Rattle.std.specs.Prelude.{length};
ghost use Rattle.text.specs.Bounds.{Room};
ghost use Rattle.attribution.specs.Calls.{Called, Captioned, Formatted};

use attribution_losses::join::join_texts;
use attribution_losses::loss::{count_losses, put_losses};
use caption::{Words, put_caption};
use lending::answer::{Converted, losses_by};
use lending::lent::{Lent, Refusal, check};
use losses::{Loss, fill};
use text::WorkAt;
use text::source::set_source;
use text::write::{lay_nothing, lay_part};
use text::writer::Writer;

pub mod caption;

// Writes the caption into work memory, from the text's length on, in the room m; a place past it says that it did not fit. The text stands before it,
// the joined texts behind it: where these do not fit, the caption does not.
fn set_caption(text: &[u8], m: usize, work: &mut [u8], numbers: &mut [u32]) -> WorkAt
    requires { Room (length text.now) m (length work.old) (length numbers.old) }
    ensures { Captioned text.now m work.new numbers.new result.0 }
{
    let n = text.len();
    let end = n + m;
    set_source(text, work);
    let past = join_texts(work, 0, n, end);
    if work.len() < past {
        return WorkAt(past);
    }
    let words = Words {
        from: WorkAt(0),
        to: WorkAt(n),
        joined: WorkAt(end),
        past: WorkAt(past),
    };
    let mut w = Writer {
        bytes: work,
        numbers,
        at: WorkAt(n),
        end,
    };
    put_caption(&mut w, words);
    w.at
}

// The caption of a text, its losses as plain numbers in front of `numbers`, and their bytes, where `lent` records are lent. Where the call is turned back, what is
// lent for the result stays as it is.
fn format(
    text: &[u8],
    lent: usize,
    out: &mut [u8],
    origins: &mut [u32],
    loss_bytes: &mut [u8],
    work: &mut [u8],
    numbers: &mut [u32],
) -> Result<Converted, Refusal>
    ensures { Formatted text.now (length out.old) (length origins.old) lent (length loss_bytes.old) (length work.old) (length numbers.old) result out.new origins.new numbers.new loss_bytes.new }
{
    let n = text.len();
    let m = out.len();
    check(
        text,
        Lent {
            out: m,
            origins: origins.len(),
            work: work.len(),
            numbers: numbers.len(),
            spans: None,
        },
    )?;
    let counts = count_losses(text);
    if lent < counts.losses {
        return Err(Refusal::TooManyLosses);
    }
    if loss_bytes.len() < counts.bytes {
        return Err(Refusal::LossBytesShort);
    }
    let to = set_caption(text, m, work, numbers);
    let size = to.0 - n;
    if m < size {
        return Err(Refusal::NoSpace);
    }
    lay_part(work, numbers, WorkAt(n), to, out, origins);
    let listed = put_losses(text, 0, 0, numbers, 0, loss_bytes, 0);
    loss_bytes[listed.bytes..].fill(0);
    Ok(Converted {
        size,
        losses: listed.losses,
        bytes: listed.bytes,
    })
}

// An attribution alone: document 01's refusals 1 to 4, then 7, 8, 6. Quote and line of its losses are 0. Where the call is turned back, all that is lent for the
// result is zero.
pub fn format_attribution(
    text: &[u8],
    out: &mut [u8],
    origins: &mut [u32],
    records: &mut [Loss],
    loss_bytes: &mut [u8],
    work: &mut [u8],
    numbers: &mut [u32],
) -> Result<Converted, Refusal>
    ensures { Called text.now (length out.old) (length origins.old) (length records.old) (length loss_bytes.old) (length work.old) (length numbers.old) result out.new origins.new records.new loss_bytes.new }
{
    let answer = format(text, records.len(), out, origins, loss_bytes, work, numbers);
    if answer.is_err() {
        lay_nothing(out, origins);
        loss_bytes.fill(0);
    }
    fill(records, numbers, losses_by(answer));
    answer
}
