// The reader: it keeps the attribution beside the next part's start. Its methods are thin, and the scanner does the work. No iterator: a part is
// known by where it starts, which a loop over the parts has to see too.
ghost use Rattle.std.specs.Prelude.{◌≡◌, false, ◌<◌, length, get_or};
ghost use Rattle.attribution_parts.specs.Parts.{is_space};
ghost use Rattle.attribution_reading.specs.Places.{Scanned};

use crate::scan::{Place, scan_at};

#[derive(Clone, Copy)]
pub struct Reader<'a> {
    pub attribution: &'a [u8],
    pub next: usize,
}

impl<'a> Reader<'a> {
    // A reader whose next part starts at `next`.
    pub fn new(attribution: &'a [u8], next: usize) -> Self
        ensures { (result.attribution ≡ attribution.entry) × (result.next ≡ next) }
    {
        Reader { attribution, next }
    }

    // The next part; the reader goes on to the one behind it.
    pub fn next_part(&mut self) -> Place
        requires { (self.old.next < length self.old.attribution.now) × (is_space (get_or self.old.attribution.now self.old.next 0) ≡ false) }
        ensures { Scanned self.old.attribution.now self.old.next result × ((self.new.attribution ≡ self.old.attribution) × (self.new.next ≡ result.next)) }
    {
        let p = scan_at(self.attribution, self.next);
        self.next = p.next;
        p
    }
}

// The part that starts at `at`. Its slice is plain: whoever calls it needs no reader.
pub fn read_part(s: &[u8], at: usize) -> Place
    requires { (at < length s.now) × (is_space (get_or s.now at 0) ≡ false) }
    ensures { Scanned s.now at result }
{
    Reader::new(s, at).next_part()
}
