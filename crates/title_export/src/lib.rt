// The title service for C and Rust: each function takes numbers and slices, and requires nothing.
#![tactic(auto)]

ghost use Rattle.std.specs.Prelude.{◌≡◌};
ghost use Rattle.parties.specs.protocol.ClientEvents.{start_deposit, start_reading, update_answer, scan_answer, client_message};
ghost use Rattle.parties.specs.protocol.DirectoryEvents.{directory_update, directory_scan};
ghost use Rattle.parties.specs.protocol.NodeEvents.{node_message};
ghost use Rattle.title.specs.Memory.{memory_fresh, directory_in, table_in, record_in};
ghost use Rattle.title.specs.Service.{Deposits, Reads, Updated, Scanned, ToClient, Updates, ToNode};
ghost use Rattle.numbers.specs.Code.{measured, code, told};

use numbers::{numbers_of, service_code};
use parties::Measures;

#[unsafe(no_mangle)]
pub extern "C" fn title_fresh(
    m: usize,
    n: usize,
    k: usize,
    t: usize,
    f: usize,
    memory: &mut [u8],
) -> u64
    ensures { (result ≡ code (memory_fresh (measured m n k t f) memory.old).answer)
        × (memory.new ≡ (memory_fresh (measured m n k t f) memory.old).memory) }
{
    service_code(title::fresh::fresh(Measures { m, n, k, t, f }, memory))
}

#[unsafe(no_mangle)]
pub extern "C" fn title_deposit(
    m: usize,
    n: usize,
    k: usize,
    t: usize,
    f: usize,
    c: usize,
    memory: &mut [u8],
    page: &[u8],
    answer: &mut [u64; 4],
)
    ensures { (answer.new ≡ told (start_deposit (measured m n k t f) c (record_in (measured m n k t f) c memory.old) page.now).answer)
        × Deposits (measured m n k t f) c page.now memory.old memory.new }
{
    *answer = numbers_of(title::title::deposit(Measures { m, n, k, t, f }, c, memory, page));
}

#[unsafe(no_mangle)]
pub extern "C" fn title_read(
    m: usize,
    n: usize,
    k: usize,
    t: usize,
    f: usize,
    c: usize,
    memory: &mut [u8],
    room: &mut [u8],
    answer: &mut [u64; 4],
)
    ensures { (answer.new ≡ told (start_reading (measured m n k t f) c (record_in (measured m n k t f) c memory.old) room.old).answer)
        × Reads (measured m n k t f) c room.old memory.old memory.new
        × (room.new ≡ (start_reading (measured m n k t f) c (record_in (measured m n k t f) c memory.old) room.old).room) }
{
    *answer = numbers_of(title::title::read(Measures { m, n, k, t, f }, c, memory, room));
}

#[unsafe(no_mangle)]
pub extern "C" fn title_updated(
    m: usize,
    n: usize,
    k: usize,
    t: usize,
    f: usize,
    c: usize,
    memory: &mut [u8],
    room: &mut [u8],
    answer: &mut [u64; 4],
)
    ensures { (answer.new ≡ told (update_answer (measured m n k t f) c (record_in (measured m n k t f) c memory.old) room.old).answer)
        × Updated (measured m n k t f) c room.old memory.old memory.new
        × (room.new ≡ (update_answer (measured m n k t f) c (record_in (measured m n k t f) c memory.old) room.old).room) }
{
    *answer = numbers_of(title::title::updated(Measures { m, n, k, t, f }, c, memory, room));
}

#[unsafe(no_mangle)]
pub extern "C" fn title_scanned(
    m: usize,
    n: usize,
    k: usize,
    t: usize,
    f: usize,
    c: usize,
    memory: &mut [u8],
    rows: &[u8],
    room: &mut [u8],
    answer: &mut [u64; 4],
)
    ensures { (answer.new ≡ told (scan_answer (measured m n k t f) c (record_in (measured m n k t f) c memory.old) rows.now room.old).answer)
        × Scanned (measured m n k t f) c rows.now room.old memory.old memory.new
        × (room.new ≡ (scan_answer (measured m n k t f) c (record_in (measured m n k t f) c memory.old) rows.now room.old).room) }
{
    *answer = numbers_of(title::title::scanned(Measures { m, n, k, t, f }, c, memory, rows, room));
}

#[unsafe(no_mangle)]
pub extern "C" fn title_to_client(
    m: usize,
    n: usize,
    k: usize,
    t: usize,
    f: usize,
    c: usize,
    i: usize,
    memory: &mut [u8],
    message: &[u8],
    room: &mut [u8],
    out: &mut [u8],
    answer: &mut [u64; 4],
)
    ensures { (answer.new ≡ told (client_message (measured m n k t f) c i (record_in (measured m n k t f) c memory.old) message.now room.old out.old).answer)
        × ToClient (measured m n k t f) c i message.now room.old out.old memory.old memory.new
        × (room.new ≡ (client_message (measured m n k t f) c i (record_in (measured m n k t f) c memory.old) message.now room.old out.old).room)
        × (out.new ≡ (client_message (measured m n k t f) c i (record_in (measured m n k t f) c memory.old) message.now room.old out.old).out) }
{
    *answer = numbers_of(title::title::to_client(
        Measures { m, n, k, t, f },
        c,
        i,
        memory,
        message,
        room,
        out,
    ));
}

#[unsafe(no_mangle)]
pub extern "C" fn title_update(
    m: usize,
    n: usize,
    k: usize,
    t: usize,
    f: usize,
    c: usize,
    memory: &mut [u8],
    fields: &[u8],
) -> u64
    ensures { (result ≡ code (directory_update (measured m n k t f) c (directory_in (measured m n k t f) memory.old) fields.now).answer)
        × Updates (measured m n k t f) c fields.now memory.old memory.new }
{
    service_code(title::title::update(Measures { m, n, k, t, f }, c, memory, fields))
}

#[unsafe(no_mangle)]
pub extern "C" fn title_scan(
    m: usize,
    n: usize,
    k: usize,
    t: usize,
    f: usize,
    memory: &[u8],
    room: &mut [u8],
) -> u64
    ensures { (result ≡ code (directory_scan (measured m n k t f) (directory_in (measured m n k t f) memory.now) room.old).answer)
        × (room.new ≡ (directory_scan (measured m n k t f) (directory_in (measured m n k t f) memory.now) room.old).room) }
{
    service_code(title::title::scan(Measures { m, n, k, t, f }, memory, room))
}

#[unsafe(no_mangle)]
pub extern "C" fn title_to_node(
    m: usize,
    n: usize,
    k: usize,
    t: usize,
    f: usize,
    i: usize,
    memory: &mut [u8],
    message: &[u8],
    room: &mut [u8],
) -> u64
    ensures { (result ≡ code (node_message (measured m n k t f) i (table_in (measured m n k t f) i memory.old) message.now room.old).answer)
        × ToNode (measured m n k t f) i message.now room.old memory.old memory.new
        × (room.new ≡ (node_message (measured m n k t f) i (table_in (measured m n k t f) i memory.old) message.now room.old).room) }
{
    service_code(title::title::to_node(Measures { m, n, k, t, f }, i, memory, message, room))
}
