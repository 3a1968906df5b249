// Events at a client, whose phase is lent.
ghost use Rattle.std.specs.Prelude.{◌≡◌};
ghost use Rattle.parties.specs.protocol.ClientEvents.{client_fresh, start_deposit, start_reading, update_answer, scan_answer, client_message};
ghost use Rattle.parties.specs.client.Answer.{answered};
ghost use Rattle.parties.specs.client.Record.{record_of};

use crate::client::turn::{
    fresh_client, message, scan_answer, start_deposit, start_reading, update_answer,
};
use crate::{ClientAnswer, Measures, Phase, Refusal};

// A fresh record is written.
pub fn fresh(p: &mut Phase, s: Measures, area: &mut [u8]) -> Result<ClientAnswer, Refusal>
    ensures { (answered result ≡ (client_fresh s (record_of p.old area.old)).answer)
        × (record_of p.new area.new ≡ (client_fresh s (record_of p.old area.old)).client) }
{
    let t = fresh_client(*p, s, area)?;
    *p = t.phase;
    Ok(t.answer)
}

// The start of a deposit.
pub fn deposit(
    p: &mut Phase,
    s: Measures,
    own: usize,
    area: &mut [u8],
    page: &[u8],
) -> Result<ClientAnswer, Refusal>
    ensures { (answered result ≡ (start_deposit s own (record_of p.old area.old) page.now).answer)
        × (record_of p.new area.new ≡ (start_deposit s own (record_of p.old area.old) page.now).client) }
{
    let t = start_deposit(*p, s, own, area, page)?;
    *p = t.phase;
    Ok(t.answer)
}

// The start of a reading.
pub fn read(
    p: &mut Phase,
    s: Measures,
    own: usize,
    area: &mut [u8],
    room: &mut [u8],
) -> Result<ClientAnswer, Refusal>
    ensures { (answered result ≡ (start_reading s own (record_of p.old area.old) room.old).answer)
        × (record_of p.new area.new ≡ (start_reading s own (record_of p.old area.old) room.old).client)
        × (room.new ≡ (start_reading s own (record_of p.old area.old) room.old).room) }
{
    let t = start_reading(*p, s, own, area, room)?;
    *p = t.phase;
    Ok(t.answer)
}

// The directory took an update.
pub fn updated(
    p: &mut Phase,
    s: Measures,
    own: usize,
    area: &mut [u8],
    room: &mut [u8],
) -> Result<ClientAnswer, Refusal>
    ensures { (answered result ≡ (update_answer s own (record_of p.old area.old) room.old).answer)
        × (record_of p.new area.new ≡ (update_answer s own (record_of p.old area.old) room.old).client)
        × (room.new ≡ (update_answer s own (record_of p.old area.old) room.old).room) }
{
    let t = update_answer(*p, s, own, area, room)?;
    *p = t.phase;
    Ok(t.answer)
}

// The directory answered a scan with its rows.
pub fn scanned(
    p: &mut Phase,
    s: Measures,
    own: usize,
    area: &mut [u8],
    rows: &[u8],
    room: &mut [u8],
) -> Result<ClientAnswer, Refusal>
    ensures { (answered result ≡ (scan_answer s own (record_of p.old area.old) rows.now room.old).answer)
        × (record_of p.new area.new ≡ (scan_answer s own (record_of p.old area.old) rows.now room.old).client)
        × (room.new ≡ (scan_answer s own (record_of p.old area.old) rows.now room.old).room) }
{
    let t = scan_answer(*p, s, own, area, rows, room)?;
    *p = t.phase;
    Ok(t.answer)
}

// A message came from node i.
pub fn receive(
    p: &mut Phase,
    s: Measures,
    own: usize,
    i: usize,
    area: &mut [u8],
    b: &[u8],
    room: &mut [u8],
    out: &mut [u8],
) -> Result<ClientAnswer, Refusal>
    ensures { (answered result ≡ (client_message s own i (record_of p.old area.old) b.now room.old out.old).answer)
        × (record_of p.new area.new ≡ (client_message s own i (record_of p.old area.old) b.now room.old out.old).client)
        × (room.new ≡ (client_message s own i (record_of p.old area.old) b.now room.old out.old).room)
        × (out.new ≡ (client_message s own i (record_of p.old area.old) b.now room.old out.old).out) }
{
    let t = message(*p, s, own, i, area, b, room, out)?;
    *p = t.phase;
    Ok(t.answer)
}
