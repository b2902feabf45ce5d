// The marks pass over a text in work memory: n cells from `base` on. What it writes stands in the area before `end`, its items in the numbers behind
// the text.
ghost use Rattle.std.specs.Prelude.{length};
ghost use Rattle.marks.specs.Passed.{MarksRoom, MarksWritten, MarksPassed};

use mark_items::items::read_items;
use mark_writing::slot::{Layout, write_slot};
use text::WorkAt;
use text::writer::Writer;

// Where the text ends (past `end` where it does not fit), and how many span numbers there are.
#[derive(Clone, Copy)]
pub struct Ended {
    pub to: WorkAt,
    pub count: usize,
}

// Writes the marks, and lists the span numbers where they fit.
pub fn write_marks(
    work: &mut [u8],
    numbers: &mut [u32],
    n: usize,
    base: WorkAt,
    end: usize,
    spans: &mut [u32],
) -> Ended
    requires { MarksRoom n base.0 end (length work.old) (length numbers.old) }
    ensures { MarksWritten work.old numbers.old spans.old n base.0 end work.new numbers.new result.to.0 spans.new result.count }
{
    let items = read_items(&work[base.0..base.0 + n], &mut numbers[base.0..]);
    let source = Layout {
        base,
        size: n,
        items,
    };
    let mut w = Writer {
        bytes: work,
        numbers,
        at: WorkAt(0),
        end,
    };
    let went = write_slot(&mut w, source, 0, 0, spans, 0);
    Ended {
        to: w.at,
        count: went.count,
    }
}

// The pass without its spans: where the text ends, past `end` where it does not fit.
pub fn marks_pass(
    work: &mut [u8],
    numbers: &mut [u32],
    n: usize,
    base: WorkAt,
    end: usize,
) -> WorkAt
    requires { MarksRoom n base.0 end (length work.old) (length numbers.old) }
    ensures { MarksPassed work.old numbers.old n base.0 end work.new numbers.new result.0 }
{
    write_marks(work, numbers, n, base, end, &mut [0]).to
}
