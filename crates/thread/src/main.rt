// Reads a post from standard input, converts it and prints the listing.
#![tactic(auto)]

use post_listing::{LISTING_MOST, POST_MOST, list_thread};
use reading::read_full;
use std::io;
use std::io::Write;

// One byte more than a post may have, so that a longer one is seen.
const POST_ROOM: usize = POST_MOST + 1;

fn main(rt: HostRuntime) -> io::Result<()> {
    let mut post = [0u8; POST_ROOM];
    let n = read_full(&mut rt.stdin(), &mut post)?;
    let mut buf = [0u8; LISTING_MOST];
    let mut nums = [0u32; LISTING_MOST];
    let end = list_thread(&post[..n], &mut buf, &mut nums);
    if let Some(listing) = buf.get(..end.0) {
        rt.stdout().write_all(listing)?;
    }
    Ok(())
}
