// The operations for C and Rust: each returns document 01's number (0: done) and sets `counts` to the length, the number of marks or of
// losses, and the loss bytes (0 where there is no such thing, and on a refusal).
#![tactic(auto)]

ghost use Rattle.std.specs.Prelude.{◌≡◌, length};
ghost use Rattle.day.specs.Day.{answer, output};
ghost use Rattle.lending.specs.Answer.{number_of_answer, counts_of_answer};
ghost use Rattle.carve.specs.Counts.{Countable, Reported, day_counts, ListsReport, MarksReport, AttributionReport, QuotesReport, PostReport};

use lending::answer::Converted;
use lending::lent::Refusal;
use losses::Loss;

// What an operation reports of its answer.
fn report(answer: Result<Converted, Refusal>, counts: &mut [u32; 3]) -> u32
    requires { Countable (counts_of_answer answer) }
    ensures { Reported answer result counts.new }
{
    match answer {
        Ok(done) => {
            *counts = [done.size as u32, done.losses as u32, done.bytes as u32];
            0
        }
        Err(refusal) => {
            *counts = [0; 3];
            u32::from(refusal)
        }
    }
}

// The day of a number of seconds since 1970.
#[unsafe(no_mangle)]
pub extern "C" fn carve_day(text: &[u8], out: &mut [u8], counts: &mut [u32; 3]) -> u32
    ensures { (result ≡ number_of_answer (answer text.now (length out.old))) × ((out.new ≡ output text.now (length out.old)) × (counts.new ≡ day_counts (answer text.now (length out.old)))) }
{
    let dated = day::unix_seconds_date(text, out);
    let answer = dated.map(|()| Converted {
        size: 10,
        losses: 0,
        bytes: 0,
    });
    report(answer, counts)
}

// Lists of a text.
#[unsafe(no_mangle)]
pub extern "C" fn carve_lists(
    text: &[u8],
    out: &mut [u8],
    origins: &mut [u32],
    work: &mut [u8],
    numbers: &mut [u32],
    counts: &mut [u32; 3],
) -> u32
    ensures { ListsReport text.now (length out.old) (length origins.old) (length work.old) (length numbers.old) result out.new origins.new counts.new }
{
    let listed = lists::convert_lists(text, out, origins, work, numbers);
    let answer = listed.map(|size| Converted {
        size,
        losses: 0,
        bytes: 0,
    });
    report(answer, counts)
}

// Marks of a text.
#[unsafe(no_mangle)]
pub extern "C" fn carve_marks(
    text: &[u8],
    out: &mut [u8],
    origins: &mut [u32],
    spans: &mut [u32],
    work: &mut [u8],
    numbers: &mut [u32],
    counts: &mut [u32; 3],
) -> u32
    ensures { MarksReport text.now (length out.old) (length origins.old) (length spans.old) (length work.old) (length numbers.old) result out.new origins.new spans.new counts.new }
{
    let marked = marks::convert_marks(text, out, origins, spans, work, numbers);
    let answer = marked.map(|marked| Converted {
        size: marked.size,
        losses: marked.spans,
        bytes: 0,
    });
    report(answer, counts)
}

// The caption of an attribution, and its losses.
#[unsafe(no_mangle)]
pub extern "C" fn carve_attribution(
    text: &[u8],
    out: &mut [u8],
    origins: &mut [u32],
    records: &mut [Loss],
    loss_bytes: &mut [u8],
    work: &mut [u8],
    numbers: &mut [u32],
    counts: &mut [u32; 3],
) -> u32
    ensures { AttributionReport text.now (length out.old) (length origins.old) (length records.old) (length loss_bytes.old) (length work.old) (length numbers.old) result out.new origins.new records.new loss_bytes.new counts.new }
{
    let answer = attribution::format_attribution(
        text, out, origins, records, loss_bytes, work, numbers,
    );
    report(answer, counts)
}

// Quotes of a text, and their losses.
#[unsafe(no_mangle)]
pub extern "C" fn carve_quotes(
    text: &[u8],
    out: &mut [u8],
    origins: &mut [u32],
    records: &mut [Loss],
    loss_bytes: &mut [u8],
    work: &mut [u8],
    numbers: &mut [u32],
    counts: &mut [u32; 3],
) -> u32
    ensures { QuotesReport text.now (length out.old) (length origins.old) (length records.old) (length loss_bytes.old) (length work.old) (length numbers.old) result out.new origins.new records.new loss_bytes.new counts.new }
{
    let answer = quotes::convert_quotes(text, out, origins, records, loss_bytes, work, numbers);
    report(answer, counts)
}

// A whole post, and its losses.
#[unsafe(no_mangle)]
pub extern "C" fn carve_post(
    text: &[u8],
    out: &mut [u8],
    origins: &mut [u32],
    records: &mut [Loss],
    loss_bytes: &mut [u8],
    work: &mut [u8],
    numbers: &mut [u32],
    counts: &mut [u32; 3],
) -> u32
    ensures { PostReport text.now (length out.old) (length origins.old) (length records.old) (length loss_bytes.old) (length work.old) (length numbers.old) result out.new origins.new records.new loss_bytes.new counts.new }
{
    let answer = post::bbcode_to_carve(text, out, origins, records, loss_bytes, work, numbers);
    report(answer, counts)
}
