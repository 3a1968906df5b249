// Fresh tables and records in lent memory.
ghost use Rattle.std.specs.Prelude.{◌≡◌, [], ◌+◌, ◌*◌, ◌≤◌, length, replicate};
ghost use Rattle.parties.specs.protocol.Format.{write_many};
ghost use Rattle.parties.specs.protocol.Directory.{write_directory, fresh_directory};
ghost use Rattle.parties.specs.protocol.DirectoryEvents.{directory_size};
ghost use Rattle.parties.specs.protocol.NodeTable.{write_table};
ghost use Rattle.parties.specs.protocol.NodeEvents.{table_size};
ghost use Rattle.parties.specs.protocol.Client.{client_size, write_client, fresh_client};
ghost use Rattle.parties.specs.records.Places.{splice};
ghost use Rattle.parties.specs.Answer.{served};
ghost use Rattle.title.specs.Memory.{memory_fresh};

use crate::memory::{directory_part, record_size, records_at, table_size};
use parties::client::record::fresh as fresh_record;
use parties::directory::fresh_directory;
use parties::node::fresh_table;
use parties::protocol::measures::Passed;
use parties::{Measures, Refusal};

// A fresh directory from one place to another. It is long enough, so that the answer tells nothing; so with the others.
fn put_directory(s: Passed, at: usize, to: usize, memory: &mut [u8])
    requires { (to ≡ at + directory_size s.measures) × (to ≤ length memory.old) }
    ensures { memory.new ≡ splice memory.old at (write_directory s.measures (fresh_directory s.measures)) }
{
    let _ = fresh_directory(s.measures, &mut memory[at..to]);
}

fn put_table(s: Passed, at: usize, to: usize, memory: &mut [u8])
    requires { (to ≡ at + table_size s.measures) × (to ≤ length memory.old) }
    ensures { memory.new ≡ splice memory.old at (write_table s.measures []) }
{
    let _ = fresh_table(s.measures, &mut memory[at..to]);
}

fn put_record(s: Passed, at: usize, to: usize, memory: &mut [u8])
    requires { (to ≡ at + client_size s.measures) × (to ≤ length memory.old) }
    ensures { memory.new ≡ splice memory.old at (write_client s.measures (fresh_client s.measures)) }
{
    let _ = fresh_record(s.measures, &mut memory[at..to]);
}

// Fresh tables for all nodes, from a place on. Each is made where it stands: clearing it takes less than copying one that was made.
fn put_tables(s: Passed, from: usize, memory: &mut [u8])
    requires { from + s.measures.n * table_size s.measures ≤ length memory.old }
    ensures { memory.new ≡ splice memory.old from (write_many (λ t. t) (replicate s.measures.n (write_table s.measures []))) }
{
    let size = table_size(s);
    for i in 0..s.measures.n {
        let at = from + i * size;
        put_table(s, at, at + size, memory);
    }
}

// Fresh records for all clients, likewise.
fn put_records(s: Passed, from: usize, memory: &mut [u8])
    requires { from + s.measures.m * client_size s.measures ≤ length memory.old }
    ensures { memory.new ≡ splice memory.old from (write_many (λ c. c) (replicate s.measures.m (write_client s.measures (fresh_client s.measures)))) }
{
    let size = record_size(s);
    for c in 0..s.measures.m {
        let at = from + c * size;
        put_record(s, at, at + size, memory);
    }
}

// Fresh tables and records.
pub fn fresh(s: Measures, memory: &mut [u8]) -> Result<usize, Refusal>
    ensures { (served result ≡ (memory_fresh s memory.old).answer) × (memory.new ≡ (memory_fresh s memory.old).memory) }
{
    let directory = directory_part(s, memory.len())?;
    let s = Passed { measures: s };
    put_directory(s, directory.start, directory.end, memory);
    put_tables(s, directory.end, memory);
    put_records(s, records_at(s), memory);
    Ok(0)
}
