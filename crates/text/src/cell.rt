// The code of a cell, as a work number holds it: twice its origin, and 1 more where its character is blank. What a cell with an origin has is made and read here.
ghost use Rattle.std.specs.Prelude.{◌≡◌, ◌+◌, ◌*◌, ◌≤◌};
ghost use Rattle.text.specs.Cells.{origin_of, is_blank};
ghost use Rattle.text.specs.Bounds.{text_most};

// The code of a blank cell that a rule writes, and of another one: both have the origin 0.
pub const RULE_BLANK: u32 = 1;

pub const RULE_SIGN: u32 = 0;

// The origin of a cell.
pub fn origin_of(code: u32) -> u32
    ensures { result ≡ origin_of code }
{
    code / 2
}

// Whether a cell's character is blank.
pub fn is_blank(code: u32) -> bool
    ensures { result ≡ is_blank code }
{
    code % 2 == 1
}

// The code of the cell of a post's byte at place i, where `blank` is 1 if its character is blank, else 0. The place is a `u32`, so that codes are made
// four at a time where the machine can.
pub fn post_code(i: u32, blank: u32) -> u32
    requires { (i ≤ text_most) × (blank ≤ 1) }
    ensures { result ≡ 2 * (i + 1) + blank }
{
    2 * (i + 1) + blank
}
