// Putting values into a lent slice one behind the other. A place past its end says that they did not fit.
ghost use Rattle.std.specs.Prelude.{◌+◌, ◌≤◌, ◌<◌, length};
ghost use Rattle.attribution_reading.specs.Places.{bytes};
ghost use Rattle.attribution_losses.specs.Lists.{Puts};

use attribution_reading::scan::Extent;

// Puts values where they fit, one by one: a slice's copy is a call, and asks the C library for one more name.
pub fn put<T: Copy>(values: &[T], buf: &mut [T], at: usize) -> usize
    requires { at + length values.now < 1099511627776 }
    ensures { Puts buf.old at buf.new result values.now }
{
    let end = at + values.len();
    if end <= buf.len() {
        for k in 0..values.len() {
            buf[at + k] = values[k];
        }
    }
    end
}

// Puts bytes that stand before the place in the same slice.
pub fn put_within(work: &mut [u8], words: Extent, at: usize) -> usize
    requires { (words.from + words.size ≤ at) × ((words.from + words.size ≤ length work.old) × (at + words.size < 4294967296)) }
    ensures { Puts work.old at work.new result (bytes work.old words.from words.size) }
{
    let end = at + words.size;
    if end <= work.len() {
        work.copy_within(words.from..words.from + words.size, at);
    }
    end
}
