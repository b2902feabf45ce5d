// What texts weigh without their backslashes. Weights tell most texts apart that are not the same, without a look at their bytes, and many weights are
// looked at together.
ghost use Rattle.std.specs.Prelude.{◌≡◌, true, ◌+◌, ◌*◌, ◌≤◌, length, drop, eqb};
ghost use Rattle.text.specs.Bounds.{out_most};
ghost use Rattle.text.specs.Ascii.{to_first};
ghost use Rattle.quote_lines.specs.Lines.{bare};
ghost use Rattle.quote_lines.specs.Tables.{weight};

// The weight of a text without its backslashes.
pub fn bare_weight(s: &[u8]) -> usize
    requires { length s.now ≤ out_most }
    ensures { (result ≡ weight (bare s.now)) × (result ≤ 511 * length s.now) }
{
    let mut n = 0;
    for &b in s {
        if b != b'\\' {
            n += 256 + usize::from(b);
        }
    }
    n
}

// Whether none of the 16 numbers from i on is n: a few comparisons where the machine takes several at once.
fn none_in_16(numbers: &[u32], i: usize, n: u32) -> bool
    requires { i + 16 ≤ length numbers.now }
    ensures { result ≡ true → 16 ≤ to_first (λ x. eqb x n) (drop i numbers.now) }
{
    let mut stands = false;
    for k in i..i + 16 {
        stands |= numbers[k] == n;
    }
    !stands
}

// The place of the first number n from a place on, or the end, as where n is greater than any number. The first is asked alone: where all are n,
// that is the whole search. A while: the last block may not be whole.
pub fn next_number(numbers: &[u32], at: usize, n: usize) -> usize
    requires { at ≤ length numbers.now }
    ensures { result ≡ at + to_first (λ x. eqb x n) (drop at numbers.now) }
{
    let Ok(wanted) = u32::try_from(n) else {
        return numbers.len();
    };
    if at < numbers.len() && numbers[at] == wanted {
        return at;
    }
    let mut i = at;
    while 16 <= numbers.len() - i && none_in_16(numbers, i, wanted) {
        i += 16;
    }
    for k in i..numbers.len() {
        if numbers[k] == wanted {
            return k;
        }
    }
    numbers.len()
}
