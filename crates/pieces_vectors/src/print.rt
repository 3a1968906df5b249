// Lines on standard output.
use crate::call::Call;
use crate::input::Function;
use coding::answer::Refusal;
use std::io;
use std::io::Write;
use vectors::few;

// A line shows so many bytes of a slice.
const FEW: usize = 20;

fn name<W: Write>(writer: &mut W, c: Call, function: Function) -> io::Result<()> {
    match function {
        Function::Split => write!(writer, "split"),
        Function::Join => write!(writer, "join"),
        Function::Cut => write!(writer, "cut {}", c.node),
    }
}

// The number of a refusal, or 0, and the length that is answered.
fn numbers(answer: Result<usize, Refusal>) -> (usize, usize) {
    match answer {
        Ok(len) => (0, len),
        Err(r) => (r.number(), 0),
    }
}

pub fn line<W: Write>(
    writer: &mut W,
    c: Call,
    function: Function,
    answer: Result<usize, Refusal>,
    given: &[u8],
    written: &[u8],
) -> io::Result<()> {
    name(writer, c, function)?;
    write!(writer, " {} {} {} {:04x}", c.n, c.k, c.f, c.map)?;
    write!(writer, " {} {} {}:", c.given, c.lens, c.written)?;
    let (number, len) = numbers(answer);
    write!(writer, " {number} {len}")?;
    few(writer, given, FEW)?;
    few(writer, written, FEW)?;
    writeln!(writer, " sum {}", c.sum)
}

pub fn digit<W: Write>(writer: &mut W, answer: Result<usize, Refusal>) -> io::Result<()> {
    let (number, _) = numbers(answer);
    write!(writer, "{number} ")
}
