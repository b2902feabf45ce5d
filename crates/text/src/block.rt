// Copying in blocks of 16 within a pair of slices: a run is copied with up to 15 cells behind its end, which the next run overwrites. A block
// is read whole before it is written, so that it is moved in a few wide steps. Bytes and numbers are copied one after the other: a long text in
// turns, block by block, is slower (docs/DECISIONS.md, "Speed").
ghost use Rattle.std.specs.Prelude.{◌≡◌, ◌+◌, ◌-◌, ◌≤◌, length, take, drop};
ghost use Rattle.std.proofs.Math.Seq.{paste};
ghost use Rattle.text.specs.Writes.{Apart, Pasted};

// Writes 16 elements from a place on, one by one: a machine moves them in a few wide steps, where a slice's copy is a call.
fn write_16<T: Copy>(s: &mut [T], at: usize, block: [T; 16])
    requires { (at + 16 ≤ length s.old) × (length block ≡ 16) }
    ensures { s.new ≡ paste s.old at block 16 }
{
    for k in 0..16 {
        s[at + k] = block[k];
    }
}

// The 16 elements from a place on, read one by one: the library's `first_chunk` tests how long the rest is, at each block.
fn read_16<T: Copy>(s: &[T], from: usize) -> [T; 16]
    requires { from + 16 ≤ length s.now }
    ensures { result ≡ take 16 (drop from s.now) }
{
    let mut block = [s[from]; 16];
    for k in 0..16 {
        block[k] = s[from + k];
    }
    block
}

// Copies the elements from a up to e to a place on, where they stand before it or behind all that is written.
fn within_one<T: Copy>(s: &mut [T], a: usize, e: usize, at: usize)
    requires { ((a ≤ e) × (e + 15 ≤ length s.old)) × ((at + (e - a) + 15 ≤ length s.old) × Apart a (e + 15) at (at + (e - a) + 15)) }
    ensures { Pasted s.old at s.new (take (e - a) (drop a s.old)) }
{
    let mut from = a;
    let mut to = at;
    // A while: both places move on by a block.
    while from < e {
        let block = read_16(s, from);
        write_16(s, to, block);
        from += 16;
        to += 16;
    }
}

// Copies the cells from a up to e likewise.
pub fn within(buf: &mut [u8], nums: &mut [u32], a: usize, e: usize, at: usize)
    requires { ((a ≤ e) × ((e + 15 ≤ length buf.old) × (e + 15 ≤ length nums.old))) × (((at + (e - a) + 15 ≤ length buf.old) × (at + (e - a) + 15 ≤ length nums.old)) × Apart a (e + 15) at (at + (e - a) + 15)) }
    ensures { Pasted buf.old at buf.new (take (e - a) (drop a buf.old)) × Pasted nums.old at nums.new (take (e - a) (drop a nums.old)) }
{
    within_one(buf, a, e, at);
    within_one(nums, a, e, at);
}
