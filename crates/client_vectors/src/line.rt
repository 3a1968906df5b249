// What a line shows of an event.
use crate::input::Event;
use parties::{ClientAnswer, Phase, Refusal, Version};
use std::io::Write;
use std::{fmt, io};

#[derive(Debug, Clone, Copy, PartialEq, Eq)]
pub struct Effect {
    pub answer: Result<ClientAnswer, Refusal>,
    pub phase: Phase,
    pub area: usize,
    pub room: usize,
    pub out: usize,
}

// A version, and a number that an answer has beside it.
#[derive(Clone, Copy)]
struct Of(Version, usize);

impl fmt::Display for Of {
    fn fmt<W: fmt::Write>(&self, f: &mut fmt::Formatter<W>) -> fmt::Result {
        let Of(v, n) = self;
        write!(f, "{}.{} {n}", v.sequence.0, v.client)
    }
}

impl fmt::Display for Effect {
    fn fmt<W: fmt::Write>(&self, f: &mut fmt::Formatter<W>) -> fmt::Result {
        match self.answer {
            Err(r) => write!(f, "refused {}", r.number())?,
            Ok(ClientAnswer::Waits) => write!(f, "waits")?,
            Ok(ClientAnswer::Scan) => write!(f, "scan")?,
            Ok(ClientAnswer::Update(n)) => write!(f, "update {n}")?,
            Ok(ClientAnswer::Stores(v, n)) => write!(f, "stores {}", Of(v, n))?,
            Ok(ClientAnswer::Requests(v, nodes)) => {
                write!(f, "requests {}", Of(v, usize::from(nodes)))?
            }
            Ok(ClientAnswer::Deposited(v, n)) => write!(f, "deposited {}", Of(v, n))?,
            Ok(ClientAnswer::Empty) => write!(f, "empty")?,
            Ok(ClientAnswer::Page(v, n)) => write!(f, "page {}", Of(v, n))?,
            Ok(ClientAnswer::Spent) => write!(f, "spent")?,
            Ok(ClientAnswer::Failed) => write!(f, "failed")?,
        }
        let p = self.phase;
        write!(
            f,
            " {} {} {} {} {}",
            p.step, p.reading.0, self.area, self.room, self.out
        )
    }
}

// The line of one form; a line of words follows if the other shows anything else.
pub fn print_agreed<W: Write>(
    writer: &mut W,
    event: Event,
    x: Effect,
    y: Effect,
) -> io::Result<()> {
    writeln!(writer, "{event} {x}")?;
    if x != y {
        writeln!(writer, "not so in one slice")?;
    }
    Ok(())
}
