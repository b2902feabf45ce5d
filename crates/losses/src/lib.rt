// Loss records in the slice of structs that a caller lends (document 01, "Quotes"). The operations list losses as plain numbers, five a
// loss, in work memory; `fill` alone writes records.
#![tactic(auto)]

ghost use Rattle.std.specs.Prelude.{◌≡◌, ◌*◌, ◌≤◌, length, take};
ghost use Rattle.losses.specs.Records.{record_at, records_lent};

// A loss: the number of its quote from 1, the line, unnamed 0 or 1, and where its field stands in the loss bytes. Quote and line are 0 in a
// call for an attribution alone.
#[repr(C)]
#[derive(Clone, Copy, Debug, Default, PartialEq, Eq)]
pub struct Loss {
    pub quote: u32,
    pub line: u32,
    pub unnamed: u32,
    pub start: u32,
    pub length: u32,
}

impl From<[u32; 5]> for Loss {
    ghost from_gives = { λ numbers loss. loss ≡ record_at numbers 0 };

    fn from([quote, line, unnamed, start, length]: [u32; 5]) -> Loss {
        Loss {
            quote,
            line,
            unnamed,
            start,
            length,
        }
    }
}

// Writes all lent records: `count` from their numbers, then zero records.
pub fn fill(records: &mut [Loss], numbers: &[u32], count: usize)
    requires { (5 * count ≤ length numbers.now) × (count ≤ length records.old) }
    ensures { records.new ≡ records_lent (length records.old) (take (5 * count) numbers.now) }
{
    let (fives, _) = numbers.as_chunks::<5>();
    for i in 0..count {
        records[i] = Loss::from(fives[i]);
    }
    records[count..].fill(Loss::default());
}
