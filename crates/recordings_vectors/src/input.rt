// Calls.
use std::io::Read;
use std::{fmt, io};
use vectors::{eight, four};

// What is called; two of the four take a width.
#[derive(Debug, Clone, Copy, PartialEq, Eq)]
pub enum Function {
    Planes(usize),
    Samples(usize),
    Rearrange,
    Restore,
}

impl fmt::Display for Function {
    fn fmt<W: fmt::Write>(&self, f: &mut fmt::Formatter<W>) -> fmt::Result {
        match self {
            Function::Planes(width) => write!(f, "planes {width}"),
            Function::Samples(width) => write!(f, "samples {width}"),
            Function::Rearrange => write!(f, "rearrange"),
            Function::Restore => write!(f, "restore"),
        }
    }
}

// A head: what is called, how many bytes follow, and how many the data and the output have.
#[derive(Debug, Clone, Copy, PartialEq, Eq)]
pub struct Call {
    pub function: Function,
    pub fresh: usize,
    pub data: usize,
    pub out: usize,
}

fn called(which: u8, width: usize) -> Function {
    match which {
        0 => Function::Planes(width),
        1 => Function::Samples(width),
        2 => Function::Rearrange,
        _ => Function::Restore,
    }
}

fn parsed(s: [u8; 21]) -> Call {
    Call {
        function: called(s[0], eight(&s, 1)),
        fresh: four(&s, 9),
        data: four(&s, 13),
        out: four(&s, 17),
    }
}

// The next call; none at the end of the input.
pub fn next<R: Read>(reader: &mut R) -> io::Result<Option<Call>> {
    Ok(vectors::head(reader)?.map(parsed))
}

// The next bytes stand at the front, if there is room for them.
pub fn bytes<R: Read>(reader: &mut R, s: &mut [u8], fresh: usize) -> io::Result<()> {
    if fresh <= s.len() {
        vectors::fill(reader, &mut s[..fresh])?;
    }
    Ok(())
}
