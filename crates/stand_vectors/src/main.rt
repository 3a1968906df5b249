// Executes sessions of `stand`, one after the other, and writes a line `=` after each. Standard input has them, each after its length (4 bytes, high byte
// first).
#![tactic(auto)]

ghost use Rattle.std.specs.Prelude.{◌≡◌, ◌≤◌, length, IfOk, OnErr};

use session::session::start;
use session::space::{Slices, Space, page};
use session::stream::{end, feed_input};
use std::io;
use std::io::{Read, Write};

// The length of the next session; none at the end of the input.
fn size<R: Read>(reader: &mut R) -> io::Result<Option<u32>> {
    Ok(vectors::head(reader)?.map(u32::from_be_bytes))
}

// At most so many bytes of the input, and at most as many as the slice has.
fn receive<R: Read>(reader: &mut R, most: usize, input: &mut [u8]) -> io::Result<usize>
    ensures within { IfOk result (λ n. (n ≤ most) × (n ≤ length input.new)) }
    ensures same { OnErr result (length input.new ≡ length input.old) }
{
    let most = most.min(input.len());
    vectors::fill(reader, &mut input[..most])
}

// So many bytes are passed over, or as many as there are.
fn skip<R: Read>(reader: &mut R, bytes: usize, input: &mut [u8]) -> io::Result<()> {
    let mut left = bytes;
    while 0 < left {
        let n = receive(reader, left, input)?;
        if n == 0 {
            return Ok(());
        }
        left -= n;
    }
    Ok(())
}

// False at the end of the input.
fn next<R: Read, W: Write>(
    reader: &mut R,
    writer: &mut W,
    input: &mut [u8],
    lent: &mut Slices<'_>,
    page: &mut [u8],
) -> io::Result<bool> {
    let Some(n) = size(reader)? else {
        return Ok(false);
    };
    let x = feed_input(reader, writer, start(), n as usize, input, lent, page)?;
    skip(reader, x.left, input)?;
    end(writer, x.session, lent, page)?;
    writeln!(writer, "=")?;
    Ok(true)
}

fn main(rt: HostRuntime) -> io::Result<()> {
    let reader = &mut rt.stdin();
    let writer = &mut rt.stdout();
    let mut input = [0u8; 4096];
    let mut space = Space::new();
    let lent = &mut space.lend();
    let mut page = page();
    for _ in 0..u64::MAX {
        if !next(reader, writer, &mut input, lent, &mut page)? {
            return Ok(());
        }
    }
    Ok(())
}
