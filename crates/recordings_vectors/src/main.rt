// Executes the rearrangement of recordings by byte plane, and writes what each call did. Standard input has the calls, each with a head
// of 21 bytes, numbers with the high byte first:
//     1 byte, which: 0 planes, 1 samples, 2 rearrange, 3 restore
//     8 bytes, the width; the last two do not take it
//     4 bytes, how many bytes follow the head: they stand at the front of the data, and what stood behind them stays
//     4 bytes, how many bytes the data have, and 4, how many the output has
// The output is poison before each call. A line is
//     NAME WIDTH DATA OUT: NUMBER BYTES.. sum SUM
// with the two lengths, and without a width where none is taken. NUMBER is that of the refusal, or 0. BYTES are those of the data and of
// the output, as the call left them, where they are few. SUM is a checksum of both.
#![tactic(auto)]

mod call;
mod input;
mod print;

use std::io;

fn main(rt: HostRuntime) -> io::Result<()> {
    let reader = &mut rt.stdin();
    let writer = &mut rt.stdout();
    let mut data = [0u8; 65536];
    let mut out = [0u8; 65536];
    for _ in 0..1000000 {
        let Some(c) = input::next(reader)? else {
            return Ok(());
        };
        input::bytes(reader, &mut data, c.fresh)?;
        call::lend(writer, c, &data, &mut out)?;
    }
    Ok(())
}
