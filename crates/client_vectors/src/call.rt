// One call, and its line.
ghost use Rattle.std.specs.Prelude.{◌≤◌, length};

use crate::input::{Call, Event, Kind};
use crate::records::{damage, save};
use crate::{forms, line};
use std::io;
use std::io::Write;

// Both forms of an event; `client` has the record that the second leaves.
fn both<W: Write>(
    writer: &mut W,
    h: Call,
    event: Event,
    records: &[u8],
    client: &mut [u8],
    bytes: &[u8],
    room: &mut [u8],
    out: &mut [u8],
) -> io::Result<()>
    requires { 5 ≤ length client.old }
{
    let x = forms::by_value(h, event, records, client, bytes, room, out);
    let y = forms::in_one_slice(h, event, records, client, bytes, room, out);
    line::print_agreed(writer, event, x, y)
}

// The record is as before the call if it is not kept: a change is undone by itself.
fn carry<W: Write>(
    writer: &mut W,
    h: Call,
    records: &mut [u8],
    client: &mut [u8],
    bytes: &[u8],
    room: &mut [u8],
    out: &mut [u8],
) -> io::Result<()>
    requires { 5 ≤ length client.old }
{
    let Kind::Event(event) = h.kind else {
        save(records, h.record, bytes);
        return Ok(());
    };
    damage(records, h.record, h.place, h.change);
    both(writer, h, event, records, client, bytes, room, out)?;
    if h.keep {
        save(records, h.record, client);
    } else {
        damage(records, h.record, h.place, h.change);
    }
    Ok(())
}

// Parts of the slices are lent; a call that asks for more than there is, or has no phase, is passed over.
pub fn lend<W: Write>(
    writer: &mut W,
    h: Call,
    records: &mut [u8],
    client: &mut [u8],
    bytes: &[u8],
    room: &mut [u8],
    out: &mut [u8],
) -> io::Result<()> {
    if h.client < 5 || client.len() < h.client || bytes.len() < h.bytes {
        return Ok(());
    }
    if room.len() < h.room || out.len() < h.out {
        return Ok(());
    }
    carry(
        writer,
        h,
        records,
        &mut client[..h.client],
        &bytes[..h.bytes],
        &mut room[..h.room],
        &mut out[..h.out],
    )
}
