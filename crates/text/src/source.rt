// The source of a pass: a text in work memory.
ghost use Rattle.std.specs.Prelude.{◌≡◌, ◌+◌, ◌≤◌, length, take};
ghost use Rattle.text.specs.Bounds.{text_most};
ghost use Rattle.text.specs.Cells.{cells, cells_of, part};

use crate::WorkAt;
use crate::blank::number;

// Copies a text to the front of a slice. By a loop, which a machine takes in wide steps: the library's copy is a call that may count byte by byte.
pub fn set_source(text: &[u8], work: &mut [u8])
    requires { length text.now ≤ length work.old }
    ensures { take (length text.now) work.new ≡ text.now }
{
    for i in 0..text.len() {
        work[i] = text[i];
    }
}

// A text becomes cells, which stand in work memory from a place on.
pub fn set_cells(text: &[u8], work: &mut [u8], numbers: &mut [u32], at: WorkAt)
    requires { (length text.now ≤ text_most) × ((at.0 + length text.now ≤ length work.old) × (at.0 + length text.now ≤ length numbers.old)) }
    ensures { part at.0 (at.0 + length text.now) (cells work.new numbers.new) ≡ cells_of text.now }
{
    let i = at.0;
    set_source(text, &mut work[i..]);
    number(text, &mut numbers[i..]);
}
