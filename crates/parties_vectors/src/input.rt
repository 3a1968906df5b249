// The head of a call.
use parties::Measures;
use std::io::Read;
use std::{fmt, io};
use vectors::{four, two};

// A kind that is no other call's is a message's.
#[derive(Debug, Clone, Copy, PartialEq, Eq)]
pub enum Kind {
    FreshDirectory,
    Update,
    Scan,
    FreshTable,
    Message(u8),
}

#[derive(Debug, Clone, Copy, PartialEq, Eq)]
pub struct Call {
    pub kind: Kind,
    pub keep: bool,
    pub measures: Measures,
    pub number: usize,
    pub table: usize,
    pub room: usize,
    pub place: usize,
    pub change: u8,
    pub message: usize,
}

impl From<u8> for Kind {
    fn from(kind: u8) -> Kind {
        match kind {
            1 => Kind::FreshDirectory,
            2 => Kind::Update,
            3 => Kind::Scan,
            4 => Kind::FreshTable,
            _ => Kind::Message(kind),
        }
    }
}

impl fmt::Display for Kind {
    fn fmt<W: fmt::Write>(&self, f: &mut fmt::Formatter<W>) -> fmt::Result {
        match self {
            Kind::FreshDirectory => write!(f, "1"),
            Kind::Update => write!(f, "2"),
            Kind::Scan => write!(f, "3"),
            Kind::FreshTable => write!(f, "4"),
            Kind::Message(kind) => write!(f, "{kind}"),
        }
    }
}

fn parsed(s: [u8; 29]) -> Call {
    Call {
        kind: Kind::from(s[0]),
        keep: s[1] == 1,
        measures: Measures {
            m: two(&s, 2),
            n: two(&s, 4),
            k: two(&s, 6),
            t: two(&s, 8),
            f: two(&s, 10),
        },
        number: two(&s, 12),
        table: four(&s, 14),
        room: four(&s, 18),
        place: four(&s, 22),
        change: s[26],
        message: two(&s, 27),
    }
}

// The next call; none at the end of the input.
pub fn next<R: Read>(reader: &mut R) -> io::Result<Option<Call>> {
    Ok(vectors::head(reader)?.map(parsed))
}

// The next n bytes stand at the front; false at the end of the input, or where there is no room for them.
pub fn message<R: Read>(reader: &mut R, s: &mut [u8], n: usize) -> io::Result<bool> {
    if s.len() < n {
        return Ok(false);
    }
    Ok(vectors::fill(reader, &mut s[..n])? == n)
}
