// Executes events at clients, and writes a line for each: its kind, the answer, step and reading index after it, and the sums of
// area, room and output after it. Eight records are kept: step (1 byte), reading index (4), then the area. Standard input has the
// calls, high bytes first:
//     kind (1 byte), whether the record after it is kept (1), the record's number (1), m n k t F, the client's and the node's number
//     (2 each), the lengths lent of area, room and output (4 each), a place of the record (4), what its byte is changed by (1),
//     how many bytes follow (4), and they: a page, rows or a message
// Kinds: 1 a fresh record, 2 a deposit starts with a page, 3 a reading starts, 4 an update's answer, 5 a scan's answer with rows,
// 6 a message, 7 they become the record's front.
// A call goes through `parties::client::turn`, and once more through `parties::client::record`; one whose answer, record, room or output
// would then be others is followed by a line of words.
#![tactic(auto)]

mod call;
mod forms;
mod input;
mod line;
mod records;
mod space;

use std::io;

fn main(rt: HostRuntime) -> io::Result<()> {
    let reader = &mut rt.stdin();
    let writer = &mut rt.stdout();
    let mut records = space::records();
    let mut client = space::one();
    let mut bytes = space::one();
    let mut room = space::one();
    let mut out = space::one();
    vectors::poison(&mut records);
    for _ in 0..1000000 {
        let Some(h) = input::next(reader)? else {
            return Ok(());
        };
        if !input::bytes(reader, &mut bytes, h.bytes)? {
            return Ok(());
        }
        call::lend(
            writer,
            h,
            &mut records,
            &mut client,
            &bytes,
            &mut room,
            &mut out,
        )?;
    }
    Ok(())
}
