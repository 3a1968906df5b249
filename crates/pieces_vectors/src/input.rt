// Commands.
use std::io;
use std::io::Read;

#[derive(Debug, Clone, Copy, PartialEq, Eq)]
pub enum Function {
    Split,
    Join,
    Cut,
}

// Of a call a line is written, or a digit of the line that is to come.
#[derive(Debug, Clone, Copy, PartialEq, Eq)]
pub enum Shown {
    Line,
    Digit,
}

#[derive(Debug, Clone, Copy, PartialEq, Eq)]
pub enum Command {
    // A number of the calls to come.
    N(usize),
    F(usize),
    Map(u16),
    Given(usize),
    Written(usize),
    Lens(usize),
    Node(usize),
    // So many bytes follow, and stand from the place on.
    Bytes { at: usize, count: usize },
    // A length, and its place.
    Length { at: usize, length: u16 },
    // A call with this k.
    Call(Function, Shown, usize),
    Nothing,
}

fn low(x: usize) -> u16 {
    (x % 65536) as u16
}

fn meant(what: u8, x: usize) -> Command {
    match what {
        1 => Command::N(x),
        2 => Command::F(x),
        3 => Command::Map(low(x)),
        4 => Command::Given(x),
        5 => Command::Written(x),
        6 => Command::Lens(x),
        7 => Command::Node(x),
        8 => Command::Bytes {
            at: x / 4294967296,
            count: x % 4294967296,
        },
        10 => Command::Call(Function::Split, Shown::Line, x),
        11 => Command::Call(Function::Join, Shown::Line, x),
        12 => Command::Call(Function::Cut, Shown::Line, x),
        13 => Command::Call(Function::Split, Shown::Digit, x),
        14 => Command::Call(Function::Join, Shown::Digit, x),
        15 => Command::Call(Function::Cut, Shown::Digit, x),
        16.. => Command::Length {
            at: usize::from(what - 16),
            length: low(x),
        },
        _ => Command::Nothing,
    }
}

fn parsed(s: [u8; 9]) -> Command {
    meant(s[0], vectors::eight(&s, 1))
}

// The next command; none at the end of the input.
pub fn next<R: Read>(reader: &mut R) -> io::Result<Option<Command>> {
    Ok(vectors::head(reader)?.map(parsed))
}

// The next bytes stand in the slice, if there is room for them.
pub fn bytes<R: Read>(reader: &mut R, s: &mut [u8], at: usize, count: usize) -> io::Result<()> {
    if at <= s.len() && count <= s.len() - at {
        vectors::fill(reader, &mut s[at..at + count])?;
    }
    Ok(())
}
