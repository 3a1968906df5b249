// The head of a call. Of the record its phase is lent, and of its area as much as the head says.
ghost use Rattle.std.specs.Prelude.{◌≤◌, length};

use parties::Measures;
use std::io::Read;
use std::{fmt, io};
use vectors::{four, two};

// An event at a client. A kind that is no other event's is a message's.
#[derive(Debug, Clone, Copy, PartialEq, Eq)]
pub enum Event {
    Fresh,
    Deposit,
    Read,
    Updated,
    Scanned,
    Message(u8),
}

// What a call is: an event, or bytes for the front of the record.
#[derive(Debug, Clone, Copy, PartialEq, Eq)]
pub enum Kind {
    Event(Event),
    Front,
}

#[derive(Debug, Clone, Copy, PartialEq, Eq)]
pub struct Call {
    pub kind: Kind,
    pub keep: bool,
    pub record: u8,
    pub measures: Measures,
    pub own: usize,
    pub node: usize,
    pub client: usize,
    pub room: usize,
    pub out: usize,
    pub place: usize,
    pub change: u8,
    pub bytes: usize,
}

impl From<u8> for Kind {
    fn from(kind: u8) -> Kind {
        match kind {
            1 => Kind::Event(Event::Fresh),
            2 => Kind::Event(Event::Deposit),
            3 => Kind::Event(Event::Read),
            4 => Kind::Event(Event::Updated),
            5 => Kind::Event(Event::Scanned),
            7 => Kind::Front,
            _ => Kind::Event(Event::Message(kind)),
        }
    }
}

impl fmt::Display for Event {
    fn fmt<W: fmt::Write>(&self, f: &mut fmt::Formatter<W>) -> fmt::Result {
        match self {
            Event::Fresh => write!(f, "1"),
            Event::Deposit => write!(f, "2"),
            Event::Read => write!(f, "3"),
            Event::Updated => write!(f, "4"),
            Event::Scanned => write!(f, "5"),
            Event::Message(kind) => write!(f, "{kind}"),
        }
    }
}

fn parsed(s: [u8; 38]) -> Call {
    Call {
        kind: Kind::from(s[0]),
        keep: s[1] == 1,
        record: s[2],
        measures: Measures {
            m: two(&s, 3),
            n: two(&s, 5),
            k: two(&s, 7),
            t: two(&s, 9),
            f: two(&s, 11),
        },
        own: two(&s, 13),
        node: two(&s, 15),
        client: 5 + four(&s, 17),
        room: four(&s, 21),
        out: four(&s, 25),
        place: four(&s, 29),
        change: s[33],
        bytes: four(&s, 34),
    }
}

// The next call; none at the end of the input.
pub fn next<R: Read>(reader: &mut R) -> io::Result<Option<Call>> {
    Ok(vectors::head(reader)?.map(parsed))
}

// The next n bytes stand at the front; false at the end of the input, or where there is no room for them.
pub fn bytes<R: Read>(reader: &mut R, s: &mut [u8], n: usize) -> io::Result<bool> {
    if s.len() < n {
        return Ok(false);
    }
    Ok(vectors::fill(reader, &mut s[..n])? == n)
}
