// What a line of a script asks for.
use lines::command::{Command as StandCommand, asked as asked_of_stand, number};
use lines::read::Line;
use parties::Measures;
use std::fmt;

#[derive(Clone, Copy, Debug, PartialEq, Eq)]
pub enum Event {
    // A client, and a page of so many bytes.
    Deposit(usize, usize),
    // A client.
    Read(usize),
    Carry(usize),
    Hand(usize),
    // A client and a node.
    Bring(usize, usize),
    // A node and a client.
    Deliver(usize, usize),
    // A node, a client, and so many bytes.
    Lie(usize, usize, usize),
}

// The front of an event's line.
impl fmt::Display for Event {
    fn fmt<W: fmt::Write>(&self, f: &mut fmt::Formatter<W>) -> fmt::Result {
        match self {
            Event::Deposit(c, _) => write!(f, "deposit {c}"),
            Event::Read(c) => write!(f, "read {c}"),
            Event::Carry(c) => write!(f, "carry {c}"),
            Event::Hand(c) => write!(f, "hand {c}"),
            Event::Bring(c, i) => write!(f, "bring {c} {i}"),
            Event::Deliver(i, c) => write!(f, "deliver {i} {c}"),
            Event::Lie(i, c, _) => write!(f, "lie {i} {c}"),
        }
    }
}

#[derive(Clone, Copy)]
pub enum Command {
    // An empty line, or one whose first word is `#`.
    Nothing,
    Config(Measures),
    // A node.
    Liar(usize),
    Show(usize),
    Event(Event),
}

// The names packed: their bytes after a 1.
const CARRY: u64 = 0x01_63_61_72_72_79;

const HAND: u64 = 0x01_68_61_6e_64;

const LIAR: u64 = 0x01_6c_69_61_72;

const SHOW: u64 = 0x01_73_68_6f_77;

const BRING: u64 = 0x01_62_72_69_6e_67;

const DELIVER: u64 = 0x01_64_65_6c_69_76_65_72;

const LIE: u64 = 0x01_6c_69_65;

const HASH: u64 = 0x01_23;

const NO_BYTES: u64 = 0x01;

// What `stand` does not know: so many words, the first one too.
fn other(l: Line) -> Option<Command> {
    let x = number(l.numbers[0])?;
    match (l.words, l.name) {
        (2, CARRY) => Some(Command::Event(Event::Carry(x))),
        (2, HAND) => Some(Command::Event(Event::Hand(x))),
        (2, LIAR) => Some(Command::Liar(x)),
        (2, SHOW) => Some(Command::Show(x)),
        (3, BRING) => Some(Command::Event(Event::Bring(x, number(l.numbers[1])?))),
        (3, DELIVER) => Some(Command::Event(Event::Deliver(x, number(l.numbers[1])?))),
        (4, LIE) => Some(Command::Event(Event::Lie(x, number(l.numbers[1])?, l.page?))),
        _ => None,
    }
}

// `#`, or an only word of no bytes.
fn nothing(l: Line) -> bool {
    l.name == HASH || l.words == 1 && l.name == NO_BYTES
}

// None for a line of another form.
pub fn asked(l: Line) -> Option<Command> {
    if nothing(l) {
        return Some(Command::Nothing);
    }
    match asked_of_stand(l) {
        Some(StandCommand::Config(m, n, k, t, f)) => {
            Some(Command::Config(Measures { m, n, k, t, f }))
        }
        Some(StandCommand::Read(c)) => Some(Command::Event(Event::Read(c))),
        Some(StandCommand::Deposit(c, n)) => Some(Command::Event(Event::Deposit(c, n))),
        None => other(l),
    }
}
