// One event in two forms: by value, and with the record in one slice.
ghost use Rattle.std.specs.Prelude.{◌≤◌, length};

use crate::input::{Call, Event};
use crate::line::Effect;
use crate::records::load;
use parties::client::{record, turn};
use parties::{ClientAnswer, Phase, ReadingIndex, Refusal, Turned};

// The step and reading index of a record.
fn phase(client: &[u8]) -> Phase
    requires { 5 ≤ length client.now }
{
    Phase {
        step: client[0],
        reading: ReadingIndex(vectors::four(client, 1) as u32),
    }
}

fn by_turn(
    h: Call,
    event: Event,
    p: Phase,
    area: &mut [u8],
    bytes: &[u8],
    room: &mut [u8],
    out: &mut [u8],
) -> Result<Turned, Refusal> {
    match event {
        Event::Fresh => turn::fresh_client(p, h.measures, area),
        Event::Deposit => turn::start_deposit(p, h.measures, h.own, area, bytes),
        Event::Read => turn::start_reading(p, h.measures, h.own, area, room),
        Event::Updated => turn::update_answer(p, h.measures, h.own, area, room),
        Event::Scanned => turn::scan_answer(p, h.measures, h.own, area, bytes, room),
        Event::Message(_) => turn::message(p, h.measures, h.own, h.node, area, bytes, room, out),
    }
}

fn by_record(
    h: Call,
    event: Event,
    client: &mut [u8],
    bytes: &[u8],
    room: &mut [u8],
    out: &mut [u8],
) -> Result<ClientAnswer, Refusal> {
    match event {
        Event::Fresh => record::fresh(h.measures, client),
        Event::Deposit => record::deposit(h.measures, h.own, client, bytes),
        Event::Read => record::read(h.measures, h.own, client, room),
        Event::Updated => record::updated(h.measures, h.own, client, room),
        Event::Scanned => record::scanned(h.measures, h.own, client, bytes, room),
        Event::Message(_) => record::receive(h.measures, h.own, h.node, client, bytes, room, out),
    }
}

fn shown(
    answer: Result<ClientAnswer, Refusal>,
    phase: Phase,
    client: &[u8],
    room: &[u8],
    out: &[u8],
) -> Effect
    requires { 5 ≤ length client.now }
{
    Effect {
        answer,
        phase,
        area: vectors::checksum(&client[5..]),
        room: vectors::checksum(room),
        out: vectors::checksum(out),
    }
}

// The record before the event, and nothing of another event.
fn ready(h: Call, records: &[u8], client: &mut [u8], room: &mut [u8], out: &mut [u8]) {
    load(client, records, h.record);
    vectors::poison(room);
    vectors::poison(out);
}

// The phase goes by value: of the record only the area is after the event. A refusal leaves the phase.
pub fn by_value(
    h: Call,
    event: Event,
    records: &[u8],
    client: &mut [u8],
    bytes: &[u8],
    room: &mut [u8],
    out: &mut [u8],
) -> Effect
    requires { 5 ≤ length client.old }
{
    ready(h, records, client, room, out);
    let p = phase(client);
    match by_turn(h, event, p, &mut client[5..], bytes, room, out) {
        Ok(t) => shown(Ok(t.answer), t.phase, client, room, out),
        Err(r) => shown(Err(r), p, client, room, out),
    }
}

// The record is one slice.
pub fn in_one_slice(
    h: Call,
    event: Event,
    records: &[u8],
    client: &mut [u8],
    bytes: &[u8],
    room: &mut [u8],
    out: &mut [u8],
) -> Effect
    requires { 5 ≤ length client.old }
{
    ready(h, records, client, room, out);
    let answer = by_record(h, event, client, bytes, room, out);
    shown(answer, phase(client), client, room, out)
}
