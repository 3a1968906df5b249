// Executes calls of the directory and the data node, and writes a line for each: its kind, the number of the refusal or the
// bytes answered, and the sums of the table and the room after it. Standard input has the calls, high bytes first:
//     kind (1 byte), whether the table after it is kept (1), m n k t F and a number (2 each), the length lent of the table
//     and of a room (4 each), a place of the table (4), what its byte is changed by (1), the message's length (2), and the message
// Kinds: 1 a fresh directory, 2 an update, 3 a scan, 4 a fresh node table, 5 a message to a node.
#![tactic(auto)]

mod call;
mod input;

use std::io;

fn main(rt: HostRuntime) -> io::Result<()> {
    let reader = &mut rt.stdin();
    let writer = &mut rt.stdout();
    let mut table = [0u8; 65536];
    let mut before = [0u8; 65536];
    let mut message = [0u8; 65536];
    let mut room = [0u8; 65536];
    vectors::poison(&mut table);
    for _ in 0..1000000 {
        let Some(h) = input::next(reader)? else {
            return Ok(());
        };
        if !input::message(reader, &mut message, h.message)? {
            return Ok(());
        }
        if !call::carry(writer, h, &mut table, &mut before, &message, &mut room)? {
            return Ok(());
        }
    }
    Ok(())
}
