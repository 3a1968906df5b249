// One page's tables and records in lent memory.
ghost use Rattle.std.specs.Prelude.{◌≡◌, true, ◌+◌, ◌*◌};
ghost use Rattle.parties.specs.protocol.DirectoryEvents.{directory_size};
ghost use Rattle.parties.specs.protocol.NodeEvents.{table_size};
ghost use Rattle.parties.specs.protocol.Client.{client_size};
ghost use Rattle.title.specs.Memory.{memory_size, table_at, record_at};
ghost use Rattle.title.specs.Part.{Fits, Placed};

use parties::protocol::measures::Passed;
use parties::{Measures, Refusal, sizes};

// The place of a table or a record in the memory.
#[derive(Clone, Copy, Debug, PartialEq, Eq)]
pub struct Part {
    pub start: usize,
    pub end: usize,
}

// The sizes of measures that pass.
fn directory_size(s: Passed) -> usize
    ensures { result ≡ directory_size s.measures }
{
    sizes::directory(s.measures)
}

pub fn table_size(s: Passed) -> usize
    ensures { result ≡ table_size s.measures }
{
    sizes::table(s.measures)
}

pub fn record_size(s: Passed) -> usize
    ensures { result ≡ client_size s.measures }
{
    sizes::record(s.measures)
}

// Where the records begin.
pub fn records_at(s: Passed) -> usize
    ensures { result ≡ directory_size s.measures + s.measures.n * table_size s.measures }
{
    let directory = directory_size(s);
    let table = table_size(s);
    directory + s.measures.n * table
}

fn memory_size(s: Passed) -> usize
    ensures { result ≡ memory_size s.measures }
{
    let tables = records_at(s);
    let record = record_size(s);
    tables + s.measures.m * record
}

// Node i's table; of a number out of bounds the first one's place.
fn table_at(s: Passed, i: usize) -> usize
    ensures { result ≡ table_at s.measures i }
{
    let directory = directory_size(s);
    if i < 1 {
        return directory;
    }
    if s.measures.n < i {
        return directory;
    }
    let table = table_size(s);
    directory + (i - 1) * table
}

// Client c's record, likewise.
fn record_at(s: Passed, c: usize) -> usize
    ensures { result ≡ record_at s.measures c }
{
    let tables = records_at(s);
    if s.measures.m <= c {
        return tables;
    }
    let record = record_size(s);
    tables + c * record
}

// Whether measures pass, and a memory of so many bytes has all parts.
fn fits(s: Measures, len: usize) -> Result<(), Refusal>
    ensures { Fits s len result }
{
    if !s.pass() {
        return Err(Refusal::Measures);
    }
    if len < memory_size(Passed { measures: s }) {
        return Err(Refusal::Short);
    }
    Ok(())
}

// The directory in a memory of so many bytes.
pub fn directory_part(s: Measures, len: usize) -> Result<Part, Refusal>
    ensures { Placed s len 0 (directory_size s) result }
{
    fits(s, len)?;
    let s = Passed { measures: s };
    let end = directory_size(s);
    Ok(Part { start: 0, end })
}

// Node i's table, likewise.
pub fn table_part(s: Measures, i: usize, len: usize) -> Result<Part, Refusal>
    ensures { Placed s len (table_at s i) (table_size s) result }
{
    fits(s, len)?;
    let s = Passed { measures: s };
    let start = table_at(s, i);
    let end = start + table_size(s);
    Ok(Part { start, end })
}

// Client c's record, likewise.
pub fn record_part(s: Measures, c: usize, len: usize) -> Result<Part, Refusal>
    ensures { Placed s len (record_at s c) (client_size s) result }
{
    fits(s, len)?;
    let s = Passed { measures: s };
    let start = record_at(s, c);
    let end = start + record_size(s);
    Ok(Part { start, end })
}
