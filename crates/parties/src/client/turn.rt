// Events at a client, by value.
ghost use Rattle.std.specs.Prelude.{◌≡◌, ◌+◌, ◌*◌, ◌≤◌, length};
ghost use Rattle.parties.specs.protocol.ClientEvents.{client_fresh, start_deposit, start_reading, update_answer, scan_answer, client_message};
ghost use Rattle.parties.specs.client.Answer.{answered, answer_of, phase_of};
ghost use Rattle.parties.specs.client.Record.{record_of, marked};

use crate::client::form::{area_size, work_at};
use crate::client::gate::{
    admit, area_and_room_long, area_long, area_room_and_output_long, area_rows_and_room_long,
    numbered,
};
use crate::client::receive::receive;
use crate::client::scan::after_scan;
use crate::client::step::{FREEZING, IDLE, PICKING, RAISING, SCANNING, UPDATING, phase_after};
use crate::protocol::measures::Passed;
use crate::protocol::version::NO_CLIENT;
use crate::records::bytes::{clear, copy, put_u32};
use crate::records::form::{READING_MAP, directory, pointer_size, row_size};
use crate::{ClientAnswer, Measures, Phase, ReadingIndex, Refusal, Turned};

// None at n places, which are zero: only its client is not.
fn put_none(t: &mut [u8], from: usize, width: usize, n: usize)
    requires { (5 ≤ width) × (from + n * width ≤ length t.old) }
    ensures { t.new ≡ marked t.old from width n }
{
    for i in 0..n {
        t[from + i * width + 4] = NO_CLIENT;
    }
}

// A fresh record: idle, all pointers and versions none, all indices 0.
pub fn fresh_client(p: Phase, s: Measures, area: &mut [u8]) -> Result<Turned, Refusal>
    ensures { (answered (answer_of result) ≡ (client_fresh s (record_of p area.old)).answer)
        × (record_of (phase_of p result) area.new ≡ (client_fresh s (record_of p area.old)).client) }
{
    if !s.pass() {
        return Err(Refusal::Measures);
    }
    let s = Passed { measures: s };
    let size = area_size(s);
    if area.len() < size {
        return Err(Refusal::Short);
    }
    let width = pointer_size(s);
    let pointers = (s.measures.m + 1) * width;
    clear(area, 0, size);
    put_none(area, 0, width, s.measures.m + 1);
    put_none(area, pointers, 5, s.measures.m);
    Ok(Turned {
        phase: Phase {
            step: IDLE,
            reading: ReadingIndex(0),
        },
        answer: ClientAnswer::Waits,
    })
}

// The start of a deposit: the page is kept, a scan is asked for.
pub fn start_deposit(
    p: Phase,
    s: Measures,
    own: usize,
    area: &mut [u8],
    page: &[u8],
) -> Result<Turned, Refusal>
    ensures { (answered (answer_of result) ≡ (start_deposit s own (record_of p area.old) page.now).answer)
        × (record_of (phase_of p result) area.new ≡ (start_deposit s own (record_of p area.old) page.now).client) }
{
    let enough = area_long(s, area.len());
    admit(s, enough, own < s.m, p, area)?;
    let s = Passed { measures: s };
    if p.step != IDLE {
        return Err(Refusal::OutOfTurn);
    }
    let n = page.len();
    if s.measures.k * s.measures.f - 4 < n {
        return Err(Refusal::TooLong);
    }
    let at = work_at(s);
    put_u32(area, at, n as u32);
    copy(area, at + 4, page, 0, n);
    Ok(Turned {
        phase: Phase {
            step: SCANNING,
            ..p
        },
        answer: ClientAnswer::Scan,
    })
}

// The start of a reading: the reading index goes up, and the directory is to have it.
pub fn start_reading(
    p: Phase,
    s: Measures,
    own: usize,
    area: &mut [u8],
    room: &mut [u8],
) -> Result<Turned, Refusal>
    ensures { (answered (answer_of result) ≡ (start_reading s own (record_of p area.old) room.old).answer)
        × (record_of (phase_of p result) area.new ≡ (start_reading s own (record_of p area.old) room.old).client)
        × (room.new ≡ (start_reading s own (record_of p area.old) room.old).room) }
{
    let enough = area_and_room_long(s, area.len(), room.len());
    admit(s, enough, own < s.m, p, area)?;
    let s = Passed { measures: s };
    if p.step != IDLE {
        return Err(Refusal::OutOfTurn);
    }
    let i = p.reading.next().ok_or(Refusal::Spent)?;
    room[0] = READING_MAP;
    put_u32(room, 1, i.0);
    Ok(Turned {
        phase: Phase {
            step: RAISING,
            reading: i,
        },
        answer: ClientAnswer::Update(5),
    })
}

// The directory took an update: the scan after it is asked for.
pub fn update_answer(
    p: Phase,
    s: Measures,
    own: usize,
    area: &mut [u8],
    room: &mut [u8],
) -> Result<Turned, Refusal>
    ensures { (answered (answer_of result) ≡ (update_answer s own (record_of p area.old) room.old).answer)
        × (record_of (phase_of p result) area.new ≡ (update_answer s own (record_of p area.old) room.old).client)
        × (room.new ≡ (update_answer s own (record_of p area.old) room.old).room) }
{
    let enough = area_and_room_long(s, area.len(), room.len());
    admit(s, enough, own < s.m, p, area)?;
    let s = Passed { measures: s };
    let step = match p.step {
        UPDATING => FREEZING,
        RAISING => PICKING,
        _ => return Err(Refusal::OutOfTurn),
    };
    Ok(Turned {
        phase: Phase { step, ..p },
        answer: ClientAnswer::Scan,
    })
}

// The rows of a scan: a deposit draws its version or frees, a reading asks for its pieces.
pub fn scan_answer(
    p: Phase,
    s: Measures,
    own: usize,
    area: &mut [u8],
    rows: &[u8],
    room: &mut [u8],
) -> Result<Turned, Refusal>
    ensures { (answered (answer_of result) ≡ (scan_answer s own (record_of p area.old) rows.now room.old).answer)
        × (record_of (phase_of p result) area.new ≡ (scan_answer s own (record_of p area.old) rows.now room.old).client)
        × (room.new ≡ (scan_answer s own (record_of p area.old) rows.now room.old).room) }
{
    let enough = area_rows_and_room_long(s, area.len(), rows.len(), room.len());
    admit(s, enough, own < s.m, p, area)?;
    let s = Passed { measures: s };
    let size = row_size(s);
    directory(s, size, rows)?;
    let a = after_scan(s, own, p, area, rows, room)?;
    Ok(Turned {
        phase: phase_after(p, a),
        answer: a,
    })
}

// A message from node i.
pub fn message(
    p: Phase,
    s: Measures,
    own: usize,
    i: usize,
    area: &mut [u8],
    message: &[u8],
    room: &mut [u8],
    out: &mut [u8],
) -> Result<Turned, Refusal>
    ensures { (answered (answer_of result) ≡ (client_message s own i (record_of p area.old) message.now room.old out.old).answer)
        × (record_of (phase_of p result) area.new ≡ (client_message s own i (record_of p area.old) message.now room.old out.old).client)
        × (room.new ≡ (client_message s own i (record_of p area.old) message.now room.old out.old).room)
        × (out.new ≡ (client_message s own i (record_of p area.old) message.now room.old out.old).out) }
{
    let enough = area_room_and_output_long(s, area.len(), room.len(), out.len());
    let within = numbered(s, own, i);
    admit(s, enough, within, p, area)?;
    let s = Passed { measures: s };
    let a = receive(s, i, p, area, message, room, out)?;
    Ok(Turned {
        phase: phase_after(p, a),
        answer: a,
    })
}
