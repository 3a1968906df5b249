// One call, and its line.
use crate::input::{Call, Kind};
use parties::{Refusal, directory, node};
use std::io;
use std::io::Write;

fn print<W: Write>(
    writer: &mut W,
    kind: Kind,
    a: Result<usize, Refusal>,
    table: &[u8],
    room: &[u8],
) -> io::Result<()> {
    match a {
        Ok(len) => write!(writer, "{kind} served {len}")?,
        Err(r) => write!(writer, "{kind} refused {}", r.number())?,
    }
    writeln!(
        writer,
        " {} {}",
        vectors::checksum(table),
        vectors::checksum(room)
    )
}

fn served(h: Call, table: &mut [u8], message: &[u8], room: &mut [u8]) -> Result<usize, Refusal> {
    match h.kind {
        Kind::FreshDirectory => directory::fresh_directory(h.measures, table),
        Kind::Update => directory::update(h.measures, h.number, table, message),
        Kind::Scan => directory::scan(h.measures, table, room),
        Kind::FreshTable => node::fresh_table(h.measures, table),
        Kind::Message(_) => node::message(h.measures, h.number, table, message, room),
    }
}

// The front of one slice becomes the other's front.
fn put(dst: &mut [u8], src: &[u8]) {
    let n = dst.len().min(src.len());
    dst[..n].copy_from_slice(&src[..n]);
}

fn damage(table: &mut [u8], at: usize, change: u8) {
    if let Some(b) = table.get_mut(at) {
        *b ^= change;
    }
}

// Parts of the slices are lent; false where a call asks for more than there is.
fn lend<W: Write>(
    writer: &mut W,
    h: Call,
    table: &mut [u8],
    message: &[u8],
    room: &mut [u8],
) -> io::Result<bool> {
    if table.len() < h.table || room.len() < h.room || message.len() < h.message {
        return Ok(false);
    }
    let table = &mut table[..h.table];
    let room = &mut room[..h.room];
    vectors::poison(room);
    let a = served(h, table, &message[..h.message], room);
    print(writer, h.kind, a, table, room)?;
    Ok(true)
}

// The table is as before the call if it is not kept. False where no call is to follow.
pub fn carry<W: Write>(
    writer: &mut W,
    h: Call,
    table: &mut [u8],
    before: &mut [u8],
    message: &[u8],
    room: &mut [u8],
) -> io::Result<bool> {
    put(before, table);
    damage(table, h.place, h.change);
    let done = lend(writer, h, table, message, room)?;
    if !h.keep {
        put(table, before);
    }
    Ok(done)
}
