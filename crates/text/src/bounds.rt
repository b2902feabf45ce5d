// Document 01's bounds and lent sizes, for a text of n bytes and an output of m.
ghost use Rattle.std.specs.Prelude.{◌≡◌, ◌≤◌};
ghost use Rattle.text.specs.Bounds.{text_most, out_most, work_size, numbers_size};

// A text's greatest length, and an output's.
pub const TEXT_MOST: usize = 262144;

pub const OUT_MOST: usize = 16777216;

// How many quotes, and how many lists, may be open.
pub const DEEP_MOST: usize = 64;

// The place past every slice's end: what was written did not fit. No Option: a writer goes on from there, so a chain of them needs no test at each step.
pub const FULL: usize = 0xffff_ffff_ffff_ffff;

// How many work bytes are asked for.
pub fn work_size(n: usize, m: usize) -> usize
    requires { (n ≤ text_most) × (m ≤ out_most) }
    ensures { result ≡ work_size n m }
{
    n + 3 * m
}

// How many work numbers are asked for.
pub fn numbers_size(n: usize, m: usize) -> usize
    requires { (n ≤ text_most) × (m ≤ out_most) }
    ensures { result ≡ numbers_size n m }
{
    8 * n + 3 * m + 64
}
