// Events at a client over its whole record in one lent slice.
ghost use Rattle.std.specs.Prelude.{◌≡◌, cond};
ghost use Rattle.parties.specs.protocol.Measures.{passes};
ghost use Rattle.parties.specs.protocol.ClientEvents.{client_fresh, start_deposit, start_reading, update_answer, scan_answer, client_message};
ghost use Rattle.parties.specs.records.Answer.{number};
ghost use Rattle.parties.specs.client.Answer.{answered};

use crate::client::event;
use crate::client::phase::{phase_of, put_phase};
use crate::{ClientAnswer, Measures, Refusal};

// Why a record that is too short for its phase is refused.
fn brief(s: Measures) -> Refusal
    ensures { number result ≡ cond (passes s) 2 1 }
{
    if s.pass() {
        Refusal::Short
    } else {
        Refusal::Measures
    }
}

// A fresh record is written.
pub fn fresh(s: Measures, client: &mut [u8]) -> Result<ClientAnswer, Refusal>
    ensures { (answered result ≡ (client_fresh s client.old).answer)
        × (client.new ≡ (client_fresh s client.old).client) }
{
    if client.len() < 5 {
        return Err(brief(s));
    }
    let mut p = phase_of(client);
    let answer = event::fresh(&mut p, s, &mut client[5..]);
    put_phase(client, p);
    answer
}

// The start of a deposit.
pub fn deposit(
    s: Measures,
    own: usize,
    client: &mut [u8],
    page: &[u8],
) -> Result<ClientAnswer, Refusal>
    ensures { (answered result ≡ (start_deposit s own client.old page.now).answer)
        × (client.new ≡ (start_deposit s own client.old page.now).client) }
{
    if client.len() < 5 {
        return Err(brief(s));
    }
    let mut p = phase_of(client);
    let answer = event::deposit(&mut p, s, own, &mut client[5..], page);
    put_phase(client, p);
    answer
}

// The start of a reading.
pub fn read(
    s: Measures,
    own: usize,
    client: &mut [u8],
    room: &mut [u8],
) -> Result<ClientAnswer, Refusal>
    ensures { (answered result ≡ (start_reading s own client.old room.old).answer)
        × (client.new ≡ (start_reading s own client.old room.old).client)
        × (room.new ≡ (start_reading s own client.old room.old).room) }
{
    if client.len() < 5 {
        return Err(brief(s));
    }
    let mut p = phase_of(client);
    let answer = event::read(&mut p, s, own, &mut client[5..], room);
    put_phase(client, p);
    answer
}

// The acknowledgement of an update.
pub fn updated(
    s: Measures,
    own: usize,
    client: &mut [u8],
    room: &mut [u8],
) -> Result<ClientAnswer, Refusal>
    ensures { (answered result ≡ (update_answer s own client.old room.old).answer)
        × (client.new ≡ (update_answer s own client.old room.old).client)
        × (room.new ≡ (update_answer s own client.old room.old).room) }
{
    if client.len() < 5 {
        return Err(brief(s));
    }
    let mut p = phase_of(client);
    let answer = event::updated(&mut p, s, own, &mut client[5..], room);
    put_phase(client, p);
    answer
}

// The rows of a scan.
pub fn scanned(
    s: Measures,
    own: usize,
    client: &mut [u8],
    rows: &[u8],
    room: &mut [u8],
) -> Result<ClientAnswer, Refusal>
    ensures { (answered result ≡ (scan_answer s own client.old rows.now room.old).answer)
        × (client.new ≡ (scan_answer s own client.old rows.now room.old).client)
        × (room.new ≡ (scan_answer s own client.old rows.now room.old).room) }
{
    if client.len() < 5 {
        return Err(brief(s));
    }
    let mut p = phase_of(client);
    let answer = event::scanned(&mut p, s, own, &mut client[5..], rows, room);
    put_phase(client, p);
    answer
}

// A message from node i.
pub fn receive(
    s: Measures,
    own: usize,
    i: usize,
    client: &mut [u8],
    b: &[u8],
    room: &mut [u8],
    out: &mut [u8],
) -> Result<ClientAnswer, Refusal>
    ensures { (answered result ≡ (client_message s own i client.old b.now room.old out.old).answer)
        × (client.new ≡ (client_message s own i client.old b.now room.old out.old).client)
        × (room.new ≡ (client_message s own i client.old b.now room.old out.old).room)
        × (out.new ≡ (client_message s own i client.old b.now room.old out.old).out) }
{
    if client.len() < 5 {
        return Err(brief(s));
    }
    let mut p = phase_of(client);
    let answer = event::receive(&mut p, s, own, i, &mut client[5..], b, room, out);
    put_phase(client, p);
    answer
}
