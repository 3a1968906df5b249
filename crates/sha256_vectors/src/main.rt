// Writes digests to standard output, a line each: what the message is, and the digest in hex. The first four messages are the
// empty one and the standard's examples; a number is how many bytes of a pattern the message has. Then come placed pieces, by
// version, node and length, and beside them messages that a placed piece's digest must not be taken of: its fields in another
// order, and the piece alone.
#![tactic(auto)]

ghost use Rattle.std.specs.Prelude.{◌≤◌};

use std::io;
use std::io::Write;

fn word<W: Write>(writer: &mut W, s: &[u8]) -> io::Result<()> {
    writer.write_all(s)
}

fn number<W: Write>(writer: &mut W, n: usize) -> io::Result<()> {
    write!(writer, "{n}")
}

fn hex<W: Write>(writer: &mut W, s: &[u8]) -> io::Result<()> {
    for b in s {
        write!(writer, "{b:02x}")?;
    }
    Ok(())
}

// Ends a line that says what the message is.
fn end_line<W: Write>(writer: &mut W, digest: [u8; 32]) -> io::Result<()> {
    word(writer, b" ")?;
    hex(writer, &digest)?;
    word(writer, b"\n")
}

fn line<W: Write>(writer: &mut W, name: &[u8], message: &[u8]) -> io::Result<()> {
    word(writer, name)?;
    end_line(writer, coding::digest(message))
}

// All byte values.
fn pattern() -> [u8; 5000] {
    let mut p = [0u8; 5000];
    for i in 0..5000 {
        p[i] = ((i * 7 + 3) % 256) as u8;
    }
    p
}

// The line of the pattern's first n bytes.
fn first<W: Write>(writer: &mut W, n: usize) -> io::Result<()>
    requires { n ≤ 5000 }
{
    let p = pattern();
    number(writer, n)?;
    end_line(writer, coding::digest(&p[..n]))
}

fn million<W: Write>(writer: &mut W) -> io::Result<()> {
    let a = [b'a'; 1000000];
    line(writer, b"a million times a", &a)
}

// The front of the line of a piece.
fn place<W: Write>(
    writer: &mut W,
    name: &[u8],
    version: [u8; 5],
    node: u8,
    n: usize,
) -> io::Result<()> {
    word(writer, name)?;
    hex(writer, &version)?;
    word(writer, b" ")?;
    write!(writer, "{node}")?;
    word(writer, b" ")?;
    number(writer, n)
}

// The piece is the pattern's first n bytes.
fn placed<W: Write>(writer: &mut W, version: [u8; 5], node: u8, n: usize) -> io::Result<()>
    requires { n ≤ 5000 }
{
    let p = pattern();
    place(writer, b"placed ", version, node, n)?;
    end_line(writer, coding::digest_placed(version, node, &p[..n]))
}

// The pattern behind the node and the version.
fn node_first(version: [u8; 5], node: u8) -> [u8; 5006] {
    let mut m = [0u8; 5006];
    m[0] = node;
    m[1..6].copy_from_slice(&version);
    m[6..].copy_from_slice(&pattern());
    m
}

fn swapped<W: Write>(writer: &mut W, version: [u8; 5], node: u8, n: usize) -> io::Result<()>
    requires { n ≤ 5000 }
{
    let m = node_first(version, node);
    let end = 6 + n;
    place(writer, b"swapped ", version, node, n)?;
    end_line(writer, coding::digest(&m[..end]))
}

fn bare<W: Write>(writer: &mut W, n: usize) -> io::Result<()>
    requires { n ≤ 5000 }
{
    word(writer, b"bare ")?;
    first(writer, n)
}

const VERSION: [u8; 5] = [0, 0, 0, 1, 0];

const NEXT_SEQUENCE: [u8; 5] = [0, 0, 0, 2, 0];

const NEXT_CLIENT: [u8; 5] = [0, 0, 0, 1, 1];

const HIGHEST: [u8; 5] = [255, 255, 255, 255, 7];

// Lengths about which a block or the padding begins.
const LENGTHS: [usize; 23] = [
    0, 1, 2, 48, 49, 50, 51, 57, 58, 59, 63, 64, 65, 112, 113, 114, 121, 122, 123, 127, 128, 1000,
    4096,
];

// One place, at each of them.
fn lengths<W: Write>(writer: &mut W) -> io::Result<()> {
    for n in LENGTHS {
        placed(writer, VERSION, 1, n)?;
    }
    Ok(())
}

// A piece at other places, then with its fields in another order, then alone.
fn places<W: Write>(writer: &mut W, n: usize) -> io::Result<()>
    requires { n ≤ 5000 }
{
    placed(writer, VERSION, 2, n)?;
    placed(writer, NEXT_SEQUENCE, 1, n)?;
    placed(writer, NEXT_CLIENT, 1, n)?;
    placed(writer, HIGHEST, 16, n)?;
    swapped(writer, VERSION, 1, n)?;
    bare(writer, n)
}

fn main(rt: HostRuntime) -> io::Result<()> {
    let writer = &mut rt.stdout();
    line(writer, b"empty", b"")?;
    line(writer, b"abc", b"abc")?;
    line(
        writer,
        b"56 letters",
        b"abcdbcdecdefdefgefghfghighijhijkijkljklmklmnlmnomnopnopq",
    )?;
    line(
        writer,
        b"112 letters",
        b"abcdefghbcdefghicdefghijdefghijkefghijklfghijklmghijklmnhijklmnoijklmnopjklmnopqklmnopqrlmnopqrsmnopqrstnopqrstu",
    )?;
    for n in [1, 55, 56, 57, 63, 64, 65, 119, 120, 128, 1000, 4096, 5000] {
        first(writer, n)?;
    }
    million(writer)?;
    lengths(writer)?;
    for n in [1, 57, 58, 59, 63, 64, 121, 122, 4096] {
        places(writer, n)?;
    }
    Ok(())
}
