// `stand`: deposits and readings from standard input, one a line, each message delivered at once.
#![tactic(auto)]

use session::session::start;
use session::space::{Space, page};
use session::stream::{end, feed_input};
use std::io;

fn main(rt: HostRuntime) -> io::Result<()> {
    let reader = &mut rt.stdin();
    let writer = &mut rt.stdout();
    let mut input = [0u8; 4096];
    let mut space = Space::new();
    let lent = &mut space.lend();
    let mut page = page();
    // more bytes than any input has
    let x = feed_input(
        reader,
        writer,
        start(),
        usize::MAX,
        &mut input,
        lent,
        &mut page,
    )?;
    end(writer, x.session, lent, &page)?;
    Ok(())
}
