// The title service: each event is handed to the party that it is for.
ghost use Rattle.std.specs.Prelude.{◌≡◌};
ghost use Rattle.parties.specs.protocol.ClientEvents.{start_deposit, start_reading, update_answer, scan_answer, client_message};
ghost use Rattle.parties.specs.protocol.DirectoryEvents.{directory_update, directory_scan};
ghost use Rattle.parties.specs.protocol.NodeEvents.{node_message};
ghost use Rattle.parties.specs.Answer.{served};
ghost use Rattle.parties.specs.client.Answer.{answered};
ghost use Rattle.title.specs.Memory.{directory_in, table_in, record_in};
ghost use Rattle.title.specs.Service.{Deposits, Reads, Updated, Scanned, ToClient, Updates, ToNode};

use crate::memory::{directory_part, record_part, table_part};
use parties::client::record::{
    deposit as start_deposit, read as start_reading, receive as client_message,
    scanned as scan_answer, updated as update_answer,
};
use parties::directory::{scan as directory_scan, update as directory_update};
use parties::node::message as node_message;
use parties::{ClientAnswer, Measures, Refusal};

// The start of a deposit at client c.
pub fn deposit(
    s: Measures,
    c: usize,
    memory: &mut [u8],
    page: &[u8],
) -> Result<ClientAnswer, Refusal>
    ensures { (answered result ≡ (start_deposit s c (record_in s c memory.old) page.now).answer)
        × Deposits s c page.now memory.old memory.new }
{
    let part = record_part(s, c, memory.len())?;
    start_deposit(s, c, &mut memory[part.start..part.end], page)
}

// The start of a reading at client c.
pub fn read(
    s: Measures,
    c: usize,
    memory: &mut [u8],
    room: &mut [u8],
) -> Result<ClientAnswer, Refusal>
    ensures { (answered result ≡ (start_reading s c (record_in s c memory.old) room.old).answer)
        × Reads s c room.old memory.old memory.new
        × (room.new ≡ (start_reading s c (record_in s c memory.old) room.old).room) }
{
    let part = record_part(s, c, memory.len())?;
    start_reading(s, c, &mut memory[part.start..part.end], room)
}

// The directory's acknowledgement of client c's update, handed to the client.
pub fn updated(
    s: Measures,
    c: usize,
    memory: &mut [u8],
    room: &mut [u8],
) -> Result<ClientAnswer, Refusal>
    ensures { (answered result ≡ (update_answer s c (record_in s c memory.old) room.old).answer)
        × Updated s c room.old memory.old memory.new
        × (room.new ≡ (update_answer s c (record_in s c memory.old) room.old).room) }
{
    let part = record_part(s, c, memory.len())?;
    update_answer(s, c, &mut memory[part.start..part.end], room)
}

// The rows of client c's scan, handed to the client.
pub fn scanned(
    s: Measures,
    c: usize,
    memory: &mut [u8],
    rows: &[u8],
    room: &mut [u8],
) -> Result<ClientAnswer, Refusal>
    ensures { (answered result ≡ (scan_answer s c (record_in s c memory.old) rows.now room.old).answer)
        × Scanned s c rows.now room.old memory.old memory.new
        × (room.new ≡ (scan_answer s c (record_in s c memory.old) rows.now room.old).room) }
{
    let part = record_part(s, c, memory.len())?;
    scan_answer(s, c, &mut memory[part.start..part.end], rows, room)
}

// A message from node i to client c.
pub fn to_client(
    s: Measures,
    c: usize,
    i: usize,
    memory: &mut [u8],
    message: &[u8],
    room: &mut [u8],
    out: &mut [u8],
) -> Result<ClientAnswer, Refusal>
    ensures { (answered result ≡ (client_message s c i (record_in s c memory.old) message.now room.old out.old).answer)
        × ToClient s c i message.now room.old out.old memory.old memory.new
        × (room.new ≡ (client_message s c i (record_in s c memory.old) message.now room.old out.old).room)
        × (out.new ≡ (client_message s c i (record_in s c memory.old) message.now room.old out.old).out) }
{
    let part = record_part(s, c, memory.len())?;
    client_message(
        s,
        c,
        i,
        &mut memory[part.start..part.end],
        message,
        room,
        out,
    )
}

// Client c's update, carried out at the directory.
pub fn update(s: Measures, c: usize, memory: &mut [u8], fields: &[u8]) -> Result<usize, Refusal>
    ensures { (served result ≡ (directory_update s c (directory_in s memory.old) fields.now).answer)
        × Updates s c fields.now memory.old memory.new }
{
    let part = directory_part(s, memory.len())?;
    directory_update(s, c, &mut memory[part.start..part.end], fields)
}

// A scan of the directory.
pub fn scan(s: Measures, memory: &[u8], room: &mut [u8]) -> Result<usize, Refusal>
    ensures { (served result ≡ (directory_scan s (directory_in s memory.now) room.old).answer)
        × (room.new ≡ (directory_scan s (directory_in s memory.now) room.old).room) }
{
    let part = directory_part(s, memory.len())?;
    directory_scan(s, &memory[part.start..part.end], room)
}

// A message to node i.
pub fn to_node(
    s: Measures,
    i: usize,
    memory: &mut [u8],
    message: &[u8],
    room: &mut [u8],
) -> Result<usize, Refusal>
    ensures { (served result ≡ (node_message s i (table_in s i memory.old) message.now room.old).answer)
        × ToNode s i message.now room.old memory.old memory.new
        × (room.new ≡ (node_message s i (table_in s i memory.old) message.now room.old).room) }
{
    let part = table_part(s, i, memory.len())?;
    node_message(s, i, &mut memory[part.start..part.end], message, room)
}
