// Trimming and lines, over a part of a pair of slices.
ghost use Rattle.std.specs.Prelude.{◌≡◌, ◌∷◌, ◌+◌, ◌≤◌, ◌<◌, length};
ghost use Rattle.text.specs.Cells.{cell, cells, part};
ghost use Rattle.text.specs.Lines.{trim_start, trim_end, all_blank, is_feed, lines};

use crate::cell::is_blank;
use crate::scan::next_byte;
use crate::{PostAt, WorkAt};

// The first place from a on, before e, whose cell is not blank, or e.
pub fn trim_start(src: &[u8], from: &[u32], a: WorkAt, e: WorkAt) -> WorkAt
    requires { (a.0 ≤ e.0) × ((e.0 ≤ length src.now) × (e.0 ≤ length from.now)) }
    ensures { (a.0 ≤ result.0) × ((result.0 ≤ e.0) × (part result.0 e.0 (cells src.now from.now) ≡ trim_start (part a.0 e.0 (cells src.now from.now)))) }
{
    for i in a.0..e.0 {
        if !is_blank(from[i]) {
            return WorkAt(i);
        }
    }
    e
}

// The place behind the last cell that is not blank, from a up to e, or a.
pub fn trim_end(src: &[u8], from: &[u32], a: WorkAt, e: WorkAt) -> WorkAt
    requires { (a.0 ≤ e.0) × ((e.0 ≤ length src.now) × (e.0 ≤ length from.now)) }
    ensures { (a.0 ≤ result.0) × ((result.0 ≤ e.0) × (part a.0 result.0 (cells src.now from.now) ≡ trim_end (part a.0 e.0 (cells src.now from.now)))) }
{
    for i in (a.0..e.0).rev() {
        if !is_blank(from[i]) {
            return WorkAt(i + 1);
        }
    }
    a
}

pub fn all_blank(src: &[u8], from: &[u32], a: WorkAt, e: WorkAt) -> bool
    requires { (a.0 ≤ e.0) × ((e.0 ≤ length src.now) × (e.0 ≤ length from.now)) }
    ensures { result ≡ all_blank (part a.0 e.0 (cells src.now from.now)) }
{
    from[a.0..e.0].iter().all(|&x| is_blank(x))
}

// Whether a cell is a line feed.
pub fn is_feed(b: u8, x: u32) -> bool
    ensures { result ≡ is_feed (cell b x) }
{
    b == b'\n' && is_blank(x)
}

// The place of the first line feed from a on, or e.
pub fn line_end(src: &[u8], from: &[u32], a: WorkAt, e: WorkAt) -> WorkAt
    requires { (a.0 < e.0) × ((e.0 ≤ length src.now) × (e.0 ≤ length from.now)) }
    ensures { (a.0 ≤ result.0) × ((result.0 ≤ e.0) × (lines (part a.0 e.0 (cells src.now from.now)) ≡ part a.0 result.0 (cells src.now from.now) ∷ lines (part (result.0 + 1) e.0 (cells src.now from.now)))) }
{
    // A while: each turn goes on at the next byte of a line feed.
    let mut i = a.0;
    while i < e.0 {
        if is_feed(src[i], from[i]) {
            return WorkAt(i);
        }
        i = next_byte(&src[..e.0], PostAt(i + 1), b'\n').0;
    }
    WorkAt(i)
}
