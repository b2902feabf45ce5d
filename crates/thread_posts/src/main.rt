// Prints what `thread` prints of an empty post, of one that is refused, of one with losses in two quotes, of one with a list in a nested quote, and
// of one that is too long.
#![tactic(auto)]

use post_listing::{LISTING_MOST, POST_MOST, list_thread};
use std::io;
use std::io::Write;

// The length of a post that is too long.
const TOO_LONG: usize = POST_MOST + 1;

fn print_listing<W: Write>(out: &mut W, post: &[u8]) -> io::Result<()> {
    let mut buf = [0u8; LISTING_MOST];
    let mut nums = [0u32; LISTING_MOST];
    let end = list_thread(post, &mut buf, &mut nums);
    if let Some(listing) = buf.get(..end.0) {
        out.write_all(listing)?;
    }
    Ok(())
}

fn main(rt: HostRuntime) -> io::Result<()> {
    let mut out = rt.stdout();
    print_listing(&mut out, b"")?;
    print_listing(&mut out, b"Seed\rlate")?;
    print_listing(
        &mut out,
        b"[quote=Ann rank=3]Estimate first.[/quote]\nNo:\n[quote=\"Bert\" post_id=9 team=x]Then seed.[/quote]",
    )?;
    print_listing(
        &mut out,
        b"[quote=Ann][quote=Bert;7]Which first?[/quote][list=1][*]estimate[*]seed[list][*]late[/list][/list][/quote]",
    )?;
    print_listing(&mut out, &[b'a'; TOO_LONG])
}
