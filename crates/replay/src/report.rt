// What happened, in words on standard output.
ghost use Rattle.std.specs.Prelude.{◌<◌, ◌≤◌, OnOk, length};
ghost use Rattle.std.specs.Io.KnownBytes.{Appends};
ghost use Rattle.lines.specs.Text.{hex_of};

use crate::command::Event;
use crate::space::Shown;
use lines::text::hex;
use parties::protocol::tags::{FREED, STORED};
use parties::records::nodes::has_node;
use parties::{ClientAnswer, Measures, Refusal, Version};
use runs::answer::Happened;
use std::io::Write;
use std::{fmt, io};

// A version in words: its sequence number, a point, its client.
#[derive(Clone, Copy, Debug, PartialEq, Eq)]
struct Stamp {
    sequence: u32,
    client: u8,
}

impl fmt::Display for Stamp {
    fn fmt<W: fmt::Write>(&self, f: &mut fmt::Formatter<W>) -> fmt::Result {
        write!(f, "{}.{}", self.sequence, self.client)
    }
}

impl From<Version> for Stamp {
    fn from(v: Version) -> Stamp {
        Stamp {
            sequence: v.sequence.0,
            client: v.client,
        }
    }
}

fn byte_at(b: &[u8], at: usize) -> u8 {
    if at < b.len() { b[at] } else { 0 }
}

fn two_at(b: &[u8], at: usize) -> usize
    requires { at ≤ 2000000 }
    ensures { result < 65536 }
{
    usize::from(u16::from_be_bytes([byte_at(b, at), byte_at(b, at + 1)]))
}

// The version in five bytes.
fn stamp_at(b: &[u8], from: usize) -> Stamp
    requires { from ≤ 1000000 }
{
    let sequence = u32::from_be_bytes([
        byte_at(b, from),
        byte_at(b, from + 1),
        byte_at(b, from + 2),
        byte_at(b, from + 3),
    ]);
    Stamp {
        sequence,
        client: byte_at(b, from + 4),
    }
}

// At most 64 bytes in hexadecimal.
fn digits<W: Write>(writer: &mut W, b: &[u8]) -> io::Result<()>
    requires { length b.now ≤ 64 }
    ensures { OnOk result (Appends (W.contents writer.old) (W.contents writer.new) (hex_of b.now)) }
{
    let mut text = [0; 128];
    let n = hex(&mut text, 0, b);
    writer.write_all(&text[..n])
}

// Bytes from a place on, so many at most, or `empty`.
fn shown<W: Write>(writer: &mut W, b: &[u8], from: usize, n: usize) -> io::Result<()> {
    let at = from.min(b.len());
    let to = at + n.min(b.len() - at);
    if to <= at {
        return write!(writer, "empty");
    }
    for part in b[at..to].chunks(64) {
        digits(writer, part)?;
    }
    Ok(())
}

// The nodes of a bit map.
fn nodes<W: Write>(writer: &mut W, map: u16) -> io::Result<()> {
    for i in 1..17 {
        if has_node(map, i) {
            write!(writer, " {i}")?;
        }
    }
    Ok(())
}

// The versions of a free list's message of so many bytes.
fn freed<W: Write>(writer: &mut W, room: &[u8], len: usize) -> io::Result<()> {
    let count = len.min(1000000) / 5;
    if count == 0 {
        return write!(writer, " none");
    }
    for j in 0..count {
        write!(writer, " {}", stamp_at(room, 1 + 5 * j))?;
    }
    Ok(())
}

fn refused<W: Write>(writer: &mut W, r: Refusal) -> io::Result<()> {
    write!(writer, "refused {}", r.number())
}

fn by_client<W: Write>(
    writer: &mut W,
    s: Measures,
    a: Result<ClientAnswer, Refusal>,
    left: &Shown,
) -> io::Result<()> {
    let answer = match a {
        Ok(answer) => answer,
        Err(r) => return refused(writer, r),
    };
    match answer {
        ClientAnswer::Waits => write!(writer, "waits"),
        ClientAnswer::Scan => write!(writer, "calls scan"),
        ClientAnswer::Update(n) => write!(writer, "calls update of {n} bytes"),
        ClientAnswer::Stores(v, n) => {
            let stamp = Stamp::from(v);
            write!(writer, "draws {stamp}, sends {} pieces of {n} bytes", s.n)
        }
        ClientAnswer::Requests(v, map) => {
            write!(writer, "picks {}, asks", Stamp::from(v))?;
            nodes(writer, map)
        }
        ClientAnswer::Deposited(v, n) => {
            write!(writer, "ends with {}, frees", Stamp::from(v))?;
            freed(writer, &left.room, n)
        }
        ClientAnswer::Empty => write!(writer, "picks none, ends empty"),
        ClientAnswer::Page(v, n) => {
            write!(writer, "ends with {}, page ", Stamp::from(v))?;
            shown(writer, &left.out, 0, n)
        }
        ClientAnswer::Spent => write!(writer, "ends, refused 7"),
        ClientAnswer::Failed => write!(writer, "ends, refused 9"),
    }
}

// A node's message of so many bytes: tag, version, and for a piece a 1 in front of it.
fn message<W: Write>(writer: &mut W, room: &[u8], len: usize) -> io::Result<()> {
    let tag = byte_at(room, 0);
    if tag == FREED {
        return write!(writer, "answers freed");
    }
    let stamp = stamp_at(room, 1);
    if tag == STORED {
        return write!(writer, "answers stored {stamp}");
    }
    if byte_at(room, 6) == 0 {
        return write!(writer, "answers {stamp} not held");
    }
    write!(writer, "answers {stamp} ")?;
    if 7 <= len {
        shown(writer, room, 7, len - 7)?;
    }
    Ok(())
}

// Of a directory's call: no bytes answer an update.
fn rows<W: Write>(writer: &mut W, len: usize) -> io::Result<()> {
    if len == 0 {
        return write!(writer, "updated");
    }
    write!(writer, "rows of {len} bytes")
}

fn by_server<W: Write>(
    writer: &mut W,
    e: Event,
    a: Result<usize, Refusal>,
    room: &[u8],
) -> io::Result<()> {
    match a {
        Err(r) => refused(writer, r),
        Ok(n) => match e {
            Event::Bring(_, _) => message(writer, room, n),
            _ => rows(writer, n),
        },
    }
}

pub fn event<W: Write>(
    writer: &mut W,
    s: Measures,
    e: Event,
    what: Happened,
    left: &Shown,
) -> io::Result<()> {
    write!(writer, "{e}: ")?;
    match what {
        Happened::Refused(r) => refused(writer, r)?,
        Happened::Nothing => write!(writer, "nothing under way")?,
        Happened::Taken => write!(writer, "taken by a liar")?,
        Happened::ByClient(a) => by_client(writer, s, a, left)?,
        Happened::ByServer(a) => by_server(writer, e, a, &left.room)?,
    }
    writeln!(writer)
}

// The measures, in front of a run's other lines.
pub fn header<W: Write>(writer: &mut W, s: Measures) -> io::Result<()> {
    writeln!(writer, "AWE {} {} {} {} {}", s.m, s.n, s.k, s.t, s.f)
}

// The filled places of a table, of so many bytes each: version, length, piece. A table has at most 18.
fn places<W: Write>(writer: &mut W, table: &[u8], f: usize) -> io::Result<()> {
    let size = 7 + f.min(64);
    let count = two_at(table, 0).min(18);
    if count == 0 {
        return write!(writer, " nothing");
    }
    for j in 0..count {
        let from = 2 + j * size;
        if 0 < j {
            write!(writer, ",")?;
        }
        write!(writer, " {} ", stamp_at(table, from))?;
        shown(writer, table, from + 7, two_at(table, from + 5))?;
    }
    Ok(())
}

// What a node holds.
pub fn holds<W: Write>(writer: &mut W, i: usize, table: &[u8], f: usize) -> io::Result<()> {
    write!(writer, "node {i} holds")?;
    places(writer, table, f)?;
    writeln!(writer)
}
