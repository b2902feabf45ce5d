// Replays data/cases: posts, each with the listing that it has to make (data/README.md says whose answers these are). Prints how many cases there are
// and for how many of them the conversion makes the same listing, and before that each case where it makes another.
#![tactic(auto)]

mod cases;
mod posts;

use cases::{Cases, is_answer, line_size};
use post_listing::LISTING_MOST;
use posts::list_line;
use reading::read_full;
use std::io::Write;
use std::{fs, io};

// More than the file has.
const FILE_ROOM: usize = 262144;

// For a person: the case, with the listing that it should have, and the listing that was made.
fn show<W: Write>(out: &mut W, number: usize, case: &[u8], listing: &[u8]) -> io::Result<()> {
    writeln!(out, "case={number}")?;
    out.write_all(case)?;
    out.write_all(b"made instead:\n")?;
    out.write_all(listing)
}

// Whether the post of a case has the listing that stands in it.
fn replay_case<W: Write>(out: &mut W, number: usize, case: &[u8]) -> io::Result<bool> {
    let mut buf = [0u8; LISTING_MOST];
    let mut nums = [0u32; LISTING_MOST];
    let post = &case[line_size(case)..];
    let answer = &post[line_size(post)..];
    // no listing is as good as an empty one
    let listing = list_line(post, &mut buf, &mut nums).unwrap_or(&[]);
    if is_answer(answer, listing) {
        return Ok(true);
    }
    show(out, number, case, listing)?;
    Ok(false)
}

fn replay<W: Write>(out: &mut W, file: &[u8]) -> io::Result<()> {
    let mut cases: usize = 0;
    let mut equal: usize = 0;
    for case in Cases(file) {
        cases += 1;
        if replay_case(out, cases, case)? {
            equal += 1;
        }
    }
    writeln!(out, "cases={cases}")?;
    writeln!(out, "equal={equal}")
}

fn main(rt: HostRuntime) -> io::Result<()> {
    let mut out = rt.stdout();
    let mut cases = fs::open(&rt, "cases")?;
    let mut file = [0u8; FILE_ROOM];
    let n = read_full(&mut cases, &mut file)?;
    // a file that fills the memory may go on behind it
    if n == FILE_ROOM {
        return out.write_all(b"cases: too long\n");
    }
    replay(&mut out, &file[..n])
}
