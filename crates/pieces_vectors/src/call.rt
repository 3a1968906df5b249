// One command.
use crate::input::{Command, Function, Shown};
use crate::{input, print};
use coding::answer::Refusal;
use coding::join::join;
use coding::split::{cut, split};
use std::io;
use std::io::{Read, Write};

// The arguments of the next call, how much is lent of each slice among them, and the sum of its line so far.
#[derive(Debug, Clone, Copy, Default)]
pub struct Call {
    pub n: usize,
    pub k: usize,
    pub f: usize,
    pub node: usize,
    pub map: u16,
    pub given: usize,
    pub lens: usize,
    pub written: usize,
    pub sum: usize,
}

fn answered(
    c: Call,
    function: Function,
    given: &[u8],
    lens: &[u16],
    written: &mut [u8],
) -> Result<usize, Refusal> {
    match function {
        Function::Split => split(c.n, c.k, c.f, given, written),
        Function::Join => join(c.n, c.k, c.f, c.map, given, lens, written),
        Function::Cut => cut(c.n, c.k, c.f, c.node, given, written),
    }
}

fn told<W: Write>(
    writer: &mut W,
    mut c: Call,
    function: Function,
    shown: Shown,
    answer: Result<usize, Refusal>,
    given: &[u8],
    written: &[u8],
) -> io::Result<Call> {
    c.sum = vectors::chained(vectors::chained(c.sum, given), written);
    match shown {
        Shown::Digit => print::digit(writer, answer)?,
        Shown::Line => {
            print::line(writer, c, function, answer, given, written)?;
            c.sum = 0;
        }
    }
    Ok(c)
}

fn lent<W: Write>(
    writer: &mut W,
    c: Call,
    function: Function,
    shown: Shown,
    given: &[u8],
    lens: &[u16],
    written: &mut [u8],
) -> io::Result<Call> {
    vectors::poison(written);
    let answer = answered(c, function, given, lens, written);
    told(writer, c, function, shown, answer, given, written)
}

// Parts of the slices are lent.
fn lend<W: Write>(
    writer: &mut W,
    c: Call,
    function: Function,
    shown: Shown,
    given: &[u8],
    lens: &[u16],
    written: &mut [u8],
) -> io::Result<Call> {
    let bytes = c.given.min(given.len());
    let count = c.lens.min(lens.len());
    let room = c.written.min(written.len());
    lent(
        writer,
        c,
        function,
        shown,
        &given[..bytes],
        &lens[..count],
        &mut written[..room],
    )
}

fn put_length(lens: &mut [u16], at: usize, length: u16) {
    if let Some(place) = lens.get_mut(at) {
        *place = length;
    }
}

// The next call after a command. What cannot be carried out is passed over.
pub fn carry<R: Read, W: Write>(
    reader: &mut R,
    writer: &mut W,
    mut c: Call,
    command: Command,
    given: &mut [u8],
    lens: &mut [u16],
    written: &mut [u8],
) -> io::Result<Call> {
    match command {
        Command::N(n) => c.n = n,
        Command::F(f) => c.f = f,
        Command::Map(map) => c.map = map,
        Command::Given(bytes) => c.given = bytes,
        Command::Written(bytes) => c.written = bytes,
        Command::Lens(count) => c.lens = count,
        Command::Node(node) => c.node = node,
        Command::Bytes { at, count } => input::bytes(reader, given, at, count)?,
        Command::Length { at, length } => put_length(lens, at, length),
        Command::Call(function, shown, k) => {
            c.k = k;
            return lend(writer, c, function, shown, given, lens, written);
        }
        Command::Nothing => {}
    }
    Ok(c)
}
