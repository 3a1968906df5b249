// Executes splits, joins and cuts, and writes what each did. Standard input has commands of 9 bytes: what to do, and a number, high
// byte first. Bytes and lengths, once given, stay.
//     1 n, 2 F, 3 the bit map, 4 to 6 how many bytes are given, how many are lent to be written, how many lengths are given, 7 the
//     node: it is this number in the calls to come
//     8 bytes follow, as many as the low half of the number says, and stand from the place on that the high half says
//     16 to 31 a length
//     10 split, 11 join, 12 cut, with this k: a line is written
//     13 split, 14 join, 15 cut, with this k: only a digit is, of the line that is to come
// A split or a cut is given a page and writes a room; a join is given a room and lengths and writes a page. After its name, and
// after the node of a cut, each has the line
//     n k F MAP GIVEN LENGTHS WRITTEN: NUMBER LENGTH BYTES.. sum SUM
// Bit map and lengths are those of the last join. After the arguments come the number of a refusal, or 0, and the length that is
// answered. BYTES are those given and those written, as the call left them, where they are few. SUM is a checksum of them all. A
// digit is the number; the bytes of a call with a digit enter the next sum.
#![tactic(auto)]

mod call;
mod input;
mod print;

use call::Call;
use std::io;

fn main(rt: HostRuntime) -> io::Result<()> {
    let reader = &mut rt.stdin();
    let writer = &mut rt.stdout();
    let mut given = [0u8; 65536];
    let mut lens = [0u16; 16];
    let mut written = [0u8; 65536];
    let mut c = Call::default();
    for _ in 0..1000000 {
        let Some(command) = input::next(reader)? else {
            return Ok(());
        };
        c = call::carry(
            reader,
            writer,
            c,
            command,
            &mut given,
            &mut lens,
            &mut written,
        )?;
    }
    Ok(())
}
