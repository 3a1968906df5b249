// Lines on standard output.
use crate::input::Function;
use recordings::answer::Refusal;
use std::io;
use std::io::Write;
use vectors::{chained, checksum, few};

// A line shows so many bytes of a slice.
const FEW: usize = 24;

// The number of a refusal, or 0.
fn number(answer: Result<(), Refusal>) -> usize {
    match answer {
        Ok(()) => 0,
        Err(r) => r.number(),
    }
}

pub fn line<W: Write>(
    writer: &mut W,
    function: Function,
    answer: Result<(), Refusal>,
    data: &[u8],
    out: &[u8],
) -> io::Result<()> {
    let lent = data.len();
    let room = out.len();
    let answered = number(answer);
    write!(writer, "{function} {lent} {room}: {answered}")?;
    few(writer, data, FEW)?;
    few(writer, out, FEW)?;
    let sum = chained(checksum(data), out);
    writeln!(writer, " sum {sum}")
}
