// What the parties' events take and give; beside it the rooms of the layer.
#![tactic(auto)]

pub mod client;
pub mod directory;
mod message;
pub mod node;
pub mod protocol;
pub mod records;
pub mod sizes;

// The measures of a set of tables.
#[derive(Clone, Copy, Debug, PartialEq, Eq)]
pub struct Measures {
    pub m: usize,
    pub n: usize,
    pub k: usize,
    pub t: usize,
    pub f: usize,
}

// Sequence numbers and reading indices are separate counters; no rule compares one with the other.
#[derive(Clone, Copy, Debug, PartialEq, Eq, PartialOrd, Ord)]
pub struct Sequence(pub u32);

#[derive(Clone, Copy, Debug, PartialEq, Eq, PartialOrd, Ord)]
pub struct ReadingIndex(pub u32);

#[derive(Clone, Copy, Debug, PartialEq, Eq, PartialOrd, Ord)]
pub struct Version {
    pub sequence: Sequence,
    pub client: u8,
}

// What is refused, by the papers' numbers.
#[derive(Clone, Copy, Debug, PartialEq, Eq)]
pub enum Refusal {
    // measures out of bounds
    Measures = 1,
    // a lent slice shorter than needed
    Short = 2,
    // client or node number out of bounds
    Number = 3,
    // a record, table, message or joined frame breaks its form; of an update's record, its bit map alone
    Form = 4,
    // a start while an operation is open, or a directory answer not awaited
    OutOfTurn = 5,
    // page too long
    TooLong = 6,
    // the last number is in use
    Spent = 7,
    // a new version at a full node
    Full = 8,
    // an update's record is empty, or its length differs from what its fields need
    Length = 11,
    // a pointer in an update's record breaks its rule
    Rule = 12,
    // a written or frozen pointer has another client than its row's
    Owner = 14,
}

// Of an event at a client that is not refused. What it sends stands in the room.
#[derive(Clone, Copy, Debug, PartialEq, Eq)]
pub enum ClientAnswer {
    // Nothing more to do.
    Waits,
    // A scan of the directory is called.
    Scan,
    // An update is called, with a record of so many bytes at the front of the room.
    Update(usize),
    // Pieces of a version, each of so many bytes, to every node.
    Stores(Version, usize),
    // A request for a version, to the nodes of a bit map.
    Requests(Version, u16),
    // The deposit of a version ended; a free list's message of so many bytes to every node.
    Deposited(Version, usize),
    // The reading ended and found nothing.
    Empty,
    // The reading of a version ended with a page of so many bytes.
    Page(Version, usize),
    // 7 in a deposit, which ended.
    Spent,
    // 9: the reading ended.
    Failed,
}

// The part of a client's record that goes by value: its step and its reading index. The rest is a lent area.
#[derive(Clone, Copy, Debug, PartialEq, Eq)]
pub struct Phase {
    pub step: u8,
    pub reading: ReadingIndex,
}

// What an event at a client leaves that is not refused: the phase after it, and its answer.
#[derive(Clone, Copy, Debug, PartialEq, Eq)]
pub struct Turned {
    pub phase: Phase,
    pub answer: ClientAnswer,
}
