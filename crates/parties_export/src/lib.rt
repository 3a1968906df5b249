// Directory, data node and client for C and Rust: each function takes numbers and slices, and requires nothing.
#![tactic(auto)]

ghost use Rattle.std.specs.Prelude.{◌≡◌};
ghost use Rattle.parties.specs.protocol.DirectoryEvents.{directory_fresh, directory_update, directory_scan};
ghost use Rattle.parties.specs.protocol.NodeEvents.{node_fresh, node_message};
ghost use Rattle.parties.specs.protocol.ClientEvents.{client_fresh, start_deposit, start_reading, update_answer, scan_answer, client_message};
ghost use Rattle.numbers.specs.Code.{measured, code, told};

use numbers::{numbers_of, service_code};
use parties::Measures;

#[unsafe(no_mangle)]
pub extern "C" fn directory_fresh(
    m: usize,
    n: usize,
    k: usize,
    t: usize,
    f: usize,
    table: &mut [u8],
) -> u64
    ensures { (result ≡ code (directory_fresh (measured m n k t f) table.old).answer)
        × (table.new ≡ (directory_fresh (measured m n k t f) table.old).table) }
{
    service_code(parties::directory::fresh_directory(Measures { m, n, k, t, f }, table))
}

#[unsafe(no_mangle)]
pub extern "C" fn directory_update(
    m: usize,
    n: usize,
    k: usize,
    t: usize,
    f: usize,
    own: usize,
    table: &mut [u8],
    fields: &[u8],
) -> u64
    ensures { (result ≡ code (directory_update (measured m n k t f) own table.old fields.now).answer)
        × (table.new ≡ (directory_update (measured m n k t f) own table.old fields.now).table) }
{
    service_code(parties::directory::update(Measures { m, n, k, t, f }, own, table, fields))
}

#[unsafe(no_mangle)]
pub extern "C" fn directory_scan(
    m: usize,
    n: usize,
    k: usize,
    t: usize,
    f: usize,
    table: &[u8],
    room: &mut [u8],
) -> u64
    ensures { (result ≡ code (directory_scan (measured m n k t f) table.now room.old).answer)
        × (room.new ≡ (directory_scan (measured m n k t f) table.now room.old).room) }
{
    service_code(parties::directory::scan(Measures { m, n, k, t, f }, table, room))
}

#[unsafe(no_mangle)]
pub extern "C" fn node_fresh(
    m: usize,
    n: usize,
    k: usize,
    t: usize,
    f: usize,
    table: &mut [u8],
) -> u64
    ensures { (result ≡ code (node_fresh (measured m n k t f) table.old).answer)
        × (table.new ≡ (node_fresh (measured m n k t f) table.old).table) }
{
    service_code(parties::node::fresh_table(Measures { m, n, k, t, f }, table))
}

#[unsafe(no_mangle)]
pub extern "C" fn node_message(
    m: usize,
    n: usize,
    k: usize,
    t: usize,
    f: usize,
    i: usize,
    table: &mut [u8],
    message: &[u8],
    room: &mut [u8],
) -> u64
    ensures { (result ≡ code (node_message (measured m n k t f) i table.old message.now room.old).answer)
        × (table.new ≡ (node_message (measured m n k t f) i table.old message.now room.old).table)
        × (room.new ≡ (node_message (measured m n k t f) i table.old message.now room.old).room) }
{
    service_code(parties::node::message(Measures { m, n, k, t, f }, i, table, message, room))
}

// The answer of an event at a client stands in four numbers.
#[unsafe(no_mangle)]
pub extern "C" fn client_fresh(
    m: usize,
    n: usize,
    k: usize,
    t: usize,
    f: usize,
    client: &mut [u8],
    answer: &mut [u64; 4],
)
    ensures { (answer.new ≡ told (client_fresh (measured m n k t f) client.old).answer)
        × (client.new ≡ (client_fresh (measured m n k t f) client.old).client) }
{
    *answer = numbers_of(parties::client::record::fresh(Measures { m, n, k, t, f }, client));
}

#[unsafe(no_mangle)]
pub extern "C" fn client_deposit(
    m: usize,
    n: usize,
    k: usize,
    t: usize,
    f: usize,
    own: usize,
    client: &mut [u8],
    page: &[u8],
    answer: &mut [u64; 4],
)
    ensures { (answer.new ≡ told (start_deposit (measured m n k t f) own client.old page.now).answer)
        × (client.new ≡ (start_deposit (measured m n k t f) own client.old page.now).client) }
{
    *answer = numbers_of(parties::client::record::deposit(
        Measures { m, n, k, t, f },
        own,
        client,
        page,
    ));
}

#[unsafe(no_mangle)]
pub extern "C" fn client_read(
    m: usize,
    n: usize,
    k: usize,
    t: usize,
    f: usize,
    own: usize,
    client: &mut [u8],
    room: &mut [u8],
    answer: &mut [u64; 4],
)
    ensures { (answer.new ≡ told (start_reading (measured m n k t f) own client.old room.old).answer)
        × (client.new ≡ (start_reading (measured m n k t f) own client.old room.old).client)
        × (room.new ≡ (start_reading (measured m n k t f) own client.old room.old).room) }
{
    *answer = numbers_of(parties::client::record::read(
        Measures { m, n, k, t, f },
        own,
        client,
        room,
    ));
}

#[unsafe(no_mangle)]
pub extern "C" fn client_updated(
    m: usize,
    n: usize,
    k: usize,
    t: usize,
    f: usize,
    own: usize,
    client: &mut [u8],
    room: &mut [u8],
    answer: &mut [u64; 4],
)
    ensures { (answer.new ≡ told (update_answer (measured m n k t f) own client.old room.old).answer)
        × (client.new ≡ (update_answer (measured m n k t f) own client.old room.old).client)
        × (room.new ≡ (update_answer (measured m n k t f) own client.old room.old).room) }
{
    *answer = numbers_of(parties::client::record::updated(
        Measures { m, n, k, t, f },
        own,
        client,
        room,
    ));
}

#[unsafe(no_mangle)]
pub extern "C" fn client_scanned(
    m: usize,
    n: usize,
    k: usize,
    t: usize,
    f: usize,
    own: usize,
    client: &mut [u8],
    rows: &[u8],
    room: &mut [u8],
    answer: &mut [u64; 4],
)
    ensures { (answer.new ≡ told (scan_answer (measured m n k t f) own client.old rows.now room.old).answer)
        × (client.new ≡ (scan_answer (measured m n k t f) own client.old rows.now room.old).client)
        × (room.new ≡ (scan_answer (measured m n k t f) own client.old rows.now room.old).room) }
{
    *answer = numbers_of(parties::client::record::scanned(
        Measures { m, n, k, t, f },
        own,
        client,
        rows,
        room,
    ));
}

#[unsafe(no_mangle)]
pub extern "C" fn client_receive(
    m: usize,
    n: usize,
    k: usize,
    t: usize,
    f: usize,
    own: usize,
    i: usize,
    client: &mut [u8],
    message: &[u8],
    room: &mut [u8],
    out: &mut [u8],
    answer: &mut [u64; 4],
)
    ensures { (answer.new ≡ told (client_message (measured m n k t f) own i client.old message.now room.old out.old).answer)
        × (client.new ≡ (client_message (measured m n k t f) own i client.old message.now room.old out.old).client)
        × (room.new ≡ (client_message (measured m n k t f) own i client.old message.now room.old out.old).room)
        × (out.new ≡ (client_message (measured m n k t f) own i client.old message.now room.old out.old).out) }
{
    *answer = numbers_of(parties::client::record::receive(
        Measures { m, n, k, t, f },
        own,
        i,
        client,
        message,
        room,
        out,
    ));
}
