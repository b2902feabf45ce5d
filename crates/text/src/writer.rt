// A writer: it appends cells to an area of a longer pair of slices, from a place `at` up to a place `end`; nothing before and nothing behind the area changes.
// What stands before or behind it is a source: its cells can be appended too. Where a text does not fit, the place goes past every end and stays there.
ghost use Rattle.std.specs.Prelude.{◌≡◌, [], ◌∷◌, map, ◌+◌, ◌≤◌, ◌<◌, length};
ghost use Rattle.text.specs.Cells.{cell, cells, part, written, feed, sign};
ghost use Rattle.text.specs.Decimal.{decimal};
ghost use Rattle.text.specs.Lines.{trim_start, trim_end, all_blank, lines};
ghost use Rattle.text.specs.Writes.{Apart, cut};

use crate::WorkAt;
use crate::area::{copy_piece, copy_within, put_in, put_text_in, put_within};
use crate::cell::{RULE_BLANK, RULE_SIGN};
use crate::trim::{all_blank, line_end, trim_end, trim_start};

#[derive(Drop)]
pub struct Writer<'a> {
    pub bytes: &'a mut [u8],
    pub numbers: &'a mut [u32],
    pub at: WorkAt,
    pub end: usize,
    ghost bytes_reach: { end ≤ length bytes.now },
    ghost numbers_reach: { end ≤ length numbers.now },
}

impl Writer<'_> {
    ghost use Rattle.text.specs.Writers.{Wrote};

    // Appends one cell.
    pub fn put(&mut self, b: u8, x: u32)
        ensures { Wrote self.old self.new (cell b x ∷ []) }
    {
        self.at = put_in(self.bytes, self.numbers, self.end, self.at, b, x);
    }

    // Appends a line feed that a rule writes.
    pub fn put_feed(&mut self)
        ensures { Wrote self.old self.new (feed ∷ []) }
    {
        self.put(b'\n', RULE_BLANK);
    }

    // Appends a space that a rule writes.
    pub fn put_space(&mut self)
        ensures { Wrote self.old self.new (cell 32 1 ∷ []) }
    {
        self.put(b' ', RULE_BLANK);
    }

    // Appends a byte that a rule writes and that is not blank.
    pub fn put_sign(&mut self, b: u8)
        ensures { Wrote self.old self.new (sign b ∷ []) }
    {
        self.put(b, RULE_SIGN);
    }

    // Appends a text that a rule writes.
    pub fn put_text(&mut self, src: &[u8])
        ensures { Wrote self.old self.new (written src.now) }
    {
        self.at = put_text_in(src, self.bytes, self.numbers, self.end, self.at);
    }

    // Appends the bytes from a up to e of the same slice, which stand outside of the area, as a text that a rule writes.
    pub fn put_within(&mut self, a: usize, e: usize)
        requires { (e ≤ length self.old.bytes.now) × Apart a e self.old.at.0 self.old.end }
        ensures { Wrote self.old self.new (written (cut a e self.old.bytes.now)) }
    {
        self.at = put_within(self.bytes, self.numbers, a, e, self.end, self.at);
    }

    // Appends the cells from a up to e of the same pair of slices, which stand before the place.
    pub fn copy_within(&mut self, a: WorkAt, e: WorkAt)
        requires { (a.0 ≤ e.0) × ((e.0 ≤ self.old.at.0) × (e.0 ≤ self.old.end)) }
        ensures { Wrote self.old self.new (part a.0 e.0 (cells self.old.bytes.now self.old.numbers.now)) }
    {
        self.at = copy_within(self.bytes, self.numbers, a, e, self.end, self.at);
    }

    // Appends the cells from a up to e of the same pair of slices, which stand behind the area.
    #[inline(always)]
    pub fn copy_back(&mut self, a: WorkAt, e: WorkAt)
        requires { ((a.0 ≤ e.0) × (self.old.end ≤ a.0)) × ((e.0 ≤ length self.old.bytes.now) × (e.0 ≤ length self.old.numbers.now)) }
        ensures { Wrote self.old self.new (part a.0 e.0 (cells self.old.bytes.now self.old.numbers.now)) }
    {
        self.at = copy_piece(self.bytes, self.numbers, a, e, self.end, self.at);
    }

    // Appends a number in decimal.
    pub fn put_decimal(&mut self, n: u32)
        ensures { Wrote self.old self.new (map sign (decimal n)) }
    {
        if n < 10 {
            self.put_sign((48 + n) as u8);
            return;
        }
        self.put_decimal(n / 10);
        self.put_sign((48 + n % 10) as u8);
    }

    // The bytes of the pair.
    pub fn source(&self) -> &[u8]
        ensures { result.now ≡ self.now.bytes.now }
    {
        self.bytes
    }

    // The first place from a on, before e, whose cell is not blank, or e.
    pub fn trim_start(&self, a: WorkAt, e: WorkAt) -> WorkAt
        requires { (a.0 ≤ e.0) × ((e.0 ≤ length self.now.bytes.now) × (e.0 ≤ length self.now.numbers.now)) }
        ensures { (a.0 ≤ result.0) × ((result.0 ≤ e.0) × (part result.0 e.0 (cells self.now.bytes.now self.now.numbers.now) ≡ trim_start (part a.0 e.0 (cells self.now.bytes.now self.now.numbers.now)))) }
    {
        trim_start(self.bytes, self.numbers, a, e)
    }

    // The place behind the last cell that is not blank, from a up to e, or a.
    pub fn trim_end(&self, a: WorkAt, e: WorkAt) -> WorkAt
        requires { (a.0 ≤ e.0) × ((e.0 ≤ length self.now.bytes.now) × (e.0 ≤ length self.now.numbers.now)) }
        ensures { (a.0 ≤ result.0) × ((result.0 ≤ e.0) × (part a.0 result.0 (cells self.now.bytes.now self.now.numbers.now) ≡ trim_end (part a.0 e.0 (cells self.now.bytes.now self.now.numbers.now)))) }
    {
        trim_end(self.bytes, self.numbers, a, e)
    }

    // Whether all cells from a up to e are blank.
    pub fn all_blank(&self, a: WorkAt, e: WorkAt) -> bool
        requires { (a.0 ≤ e.0) × ((e.0 ≤ length self.now.bytes.now) × (e.0 ≤ length self.now.numbers.now)) }
        ensures { result ≡ all_blank (part a.0 e.0 (cells self.now.bytes.now self.now.numbers.now)) }
    {
        all_blank(self.bytes, self.numbers, a, e)
    }

    // The place of the first line feed from a on, or e.
    pub fn line_end(&self, a: WorkAt, e: WorkAt) -> WorkAt
        requires { (a.0 < e.0) × ((e.0 ≤ length self.now.bytes.now) × (e.0 ≤ length self.now.numbers.now)) }
        ensures { (a.0 ≤ result.0) × ((result.0 ≤ e.0) × (lines (part a.0 e.0 (cells self.now.bytes.now self.now.numbers.now)) ≡ part a.0 result.0 (cells self.now.bytes.now self.now.numbers.now) ∷ lines (part (result.0 + 1) e.0 (cells self.now.bytes.now self.now.numbers.now)))) }
    {
        line_end(self.bytes, self.numbers, a, e)
    }
}
