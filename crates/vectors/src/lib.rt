// What the programs that execute vectors have in common: bytes to work on, sums of them, and printing.
#![tactic(auto)]

ghost use Rattle.std.specs.Prelude.{◌≡◌, ◌+◌, ◌<◌, ◌++◌, ◌≤◌, length, take, drop, replicate, Option, None, IfSome, IfOk, OnOk, OnErr, codes, decimal};
ghost use Rattle.std.specs.Io.KnownBytes.{Appends, Consumes, IsAtEnd};
ghost use Rattle.std.specs.Int.{from_be_bytes, w16, w32, w64};
ghost use Rattle.vectors.specs.Bytes.{poison_of, checksum_from, chained_from, hex_pair, few_of};

use std::io;
use std::io::{Read, Write};

// What a slice holds before a call, so that a byte too many or too few shows.
pub fn poison(s: &mut [u8])
    ensures { s.new ≡ poison_of (length s.old) }
{
    for (i, b) in s.iter_mut().enumerate() {
        *b = ((i % 256 * 13 + 170) % 256) as u8;
    }
}

pub fn checksum(s: &[u8]) -> usize
    ensures sum { result ≡ checksum_from 0 s.now }
    ensures bound { result < 4294967296 }
{
    let mut h = 0;
    for b in s {
        h = (h * 257 + usize::from(*b) + 1) % 4294967296;
    }
    h
}

// The sum goes on from slice to slice.
pub fn chained(sum: usize, s: &[u8]) -> usize
    ensures { result ≡ chained_from sum s.now }
{
    (sum % 4294967296 * 31 + checksum(s)) % 4294967296
}

// The N bytes from a place on; zeros, where a slice has fewer there.
fn bytes<const N: usize>(s: &[u8], at: usize) -> [u8; N]
    ensures there { at + N ≤ length s.now → result ≡ take N (drop at s.now) }
    ensures short { length s.now < at + N → result ≡ replicate N 0 }
{
    if at <= s.len() {
        if let Some(bytes) = s[at..].first_chunk() {
            return *bytes;
        }
    }
    [0; N]
}

// The number that so many bytes from a place on are, high byte first; 0, where a slice has fewer there.
pub fn two(s: &[u8], at: usize) -> usize
    ensures value { at + 2 ≤ length s.now → result ≡ from_be_bytes w16 (take 2 (drop at s.now)) }
    ensures short { length s.now < at + 2 → result ≡ 0 }
    ensures bound { result < 65536 }
{
    usize::from(u16::from_be_bytes(bytes(s, at)))
}

pub fn four(s: &[u8], at: usize) -> usize
    ensures value { at + 4 ≤ length s.now → result ≡ from_be_bytes w32 (take 4 (drop at s.now)) }
    ensures short { length s.now < at + 4 → result ≡ 0 }
    ensures bound { result < 4294967296 }
{
    u32::from_be_bytes(bytes(s, at)) as usize
}

pub fn eight(s: &[u8], at: usize) -> usize
    ensures value { at + 8 ≤ length s.now → result ≡ from_be_bytes w64 (take 8 (drop at s.now)) }
    ensures short { length s.now < at + 8 → result ≡ 0 }
{
    usize::from_be_bytes(bytes(s, at))
}

// Fills a slice from its front, and answers how many bytes that took: fewer than it has only at the end of the input. An error leaves the
// slice its length; what stands in it is free then, and so is how far the reader came. The loop is a `while`, since a read may give fewer
// bytes than it has room for, and `read_exact` does not say how many there were.
pub fn fill<R: Read>(reader: &mut R, s: &mut [u8]) -> io::Result<usize>
    ensures within { IfOk result (λ n. n ≤ length s.new) }
    ensures bytes { IfOk result (λ n. Consumes (R.remaining reader.old) (R.remaining reader.new) (take n s.new)) }
    ensures end { IfOk result (λ n. n < length s.new → IsAtEnd (R.remaining reader.new)) }
    ensures same { OnErr result (length s.new ≡ length s.old) }
{
    let mut done = 0;
    while done < s.len() {
        let n = reader.read(&mut s[done..])?;
        if n == 0 {
            return Ok(done);
        }
        done += n;
    }
    Ok(done)
}

// The next N bytes; nothing where the input ends before, whatever of them it still has.
pub fn head<const N: usize, R: Read>(reader: &mut R) -> io::Result<Option<[u8; N]>>
    ensures bytes { IfOk result (λ o. IfSome o (λ s. Consumes (R.remaining reader.old) (R.remaining reader.new) s)) }
    ensures end { IfOk result (λ o. o ≡ None → IsAtEnd (R.remaining reader.new)) }
{
    let mut space = [0; N];
    let got = fill(reader, &mut space)?;
    if got < N {
        return Ok(None);
    }
    Ok(Some(space))
}

// Each of these answers once all of it is written, or with an error, after a part of it. Of a writer whose bytes are not known, as
// standard output, this says no more than that.
pub fn word<W: Write>(writer: &mut W, s: &[u8]) -> io::Result<()>
    ensures { OnOk result (Appends (W.contents writer.old) (W.contents writer.new) s.now) }
{
    writer.write_all(s)
}

pub fn digit<W: Write>(writer: &mut W, x: usize) -> io::Result<()>
    ensures { OnOk result (Appends (W.contents writer.old) (W.contents writer.new) (decimal x)) }
{
    write!(writer, "{x}")
}

// A number after a space.
pub fn number<W: Write>(writer: &mut W, x: usize) -> io::Result<()>
    ensures { OnOk result (Appends (W.contents writer.old) (W.contents writer.new) (codes " " ++ decimal x)) }
{
    word(writer, b" ")?;
    digit(writer, x)
}

fn byte<W: Write>(writer: &mut W, b: u8) -> io::Result<()>
    ensures { OnOk result (Appends (W.contents writer.old) (W.contents writer.new) (hex_pair b)) }
{
    write!(writer, "{b:02x}")
}

// The bytes after a space, if there are no more than that.
pub fn few<W: Write>(writer: &mut W, s: &[u8], most: usize) -> io::Result<()>
    ensures { OnOk result (Appends (W.contents writer.old) (W.contents writer.new) (few_of most s.now)) }
{
    if most < s.len() {
        return Ok(());
    }
    word(writer, b" ")?;
    for b in s {
        byte(writer, *b)?;
    }
    Ok(())
}
