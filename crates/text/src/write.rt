// Laying out cells as a text and its origins, in a lent pair of slices.
ghost use Rattle.std.specs.Prelude.{◌≡◌, [], ◌∷◌, map, ◌+◌, ◌≤◌, length, take};
ghost use Rattle.text.specs.Cells.{cell, cells, origin_of, part};
ghost use Rattle.text.specs.Writes.{Appends, padded, LaidOut};

use crate::area::put_in;
use crate::cell::origin_of;
use crate::{TextAt, WorkAt};

// Appends one cell to the whole of two slices, of whatever lengths.
pub fn put(buf: &mut [u8], nums: &mut [u32], at: TextAt, b: u8, x: u32) -> TextAt
    ensures { Appends (cells buf.old nums.old) at.0 (cells buf.new nums.new) result.0 (cell b x ∷ []) }
{
    let end = buf.len().min(nums.len());
    let to = put_in(buf, nums, end, WorkAt(at.0), b, x);
    TextAt(to.0)
}

// Lays out the first n bytes of a source, with zeros behind them.
fn lay_bytes(src: &[u8], n: usize, out: &mut [u8])
    requires { (n ≤ length src.now) × (n ≤ length out.old) }
    ensures { out.new ≡ padded (length out.old) (take n src.now) }
{
    for i in 0..n {
        out[i] = src[i];
    }
    out[n..].fill(0);
}

// Lays out the origins of the first n numbers of a source, with zeros behind them.
fn lay_origins(from: &[u32], n: usize, plain: &mut [u32])
    requires { (n ≤ length from.now) × (n ≤ length plain.old) }
    ensures { plain.new ≡ padded (length plain.old) (map origin_of (take n from.now)) }
{
    for i in 0..n {
        plain[i] = origin_of(from[i]);
    }
    plain[n..].fill(0);
}

// Lays out the first n cells of a source as text and origins, with zeros behind them.
pub fn lay_out(src: &[u8], from: &[u32], n: usize, out: &mut [u8], plain: &mut [u32])
    requires { (n ≤ length src.now) × ((n ≤ length from.now) × ((n ≤ length out.old) × (n ≤ length plain.old))) }
    ensures { LaidOut (take n (cells src.now from.now)) (length out.old) (length plain.old) out.new plain.new }
{
    lay_bytes(src, n, out);
    lay_origins(from, n, plain);
}

// Lays out the cells of a source from a up to e as text and origins, with zeros behind them.
pub fn lay_part(src: &[u8], from: &[u32], a: WorkAt, e: WorkAt, out: &mut [u8], plain: &mut [u32])
    requires { ((a.0 ≤ e.0) × ((e.0 ≤ length src.now) × (e.0 ≤ length from.now))) × ((e.0 ≤ a.0 + length out.old) × (e.0 ≤ a.0 + length plain.old)) }
    ensures { LaidOut (part a.0 e.0 (cells src.now from.now)) (length out.old) (length plain.old) out.new plain.new }
{
    lay_out(&src[a.0..e.0], &from[a.0..e.0], e.0 - a.0, out, plain);
}

// Lays out nothing: zeros.
pub fn lay_nothing(out: &mut [u8], plain: &mut [u32])
    ensures { LaidOut [] (length out.old) (length plain.old) out.new plain.new }
{
    out.fill(0);
    plain.fill(0);
}
