// `replay`: a script of single events from standard input, one a line, and after each what happened.
#![tactic(auto)]

use crate::buffered::Buffered;
use crate::run::{Run, line, start};
use crate::space::Space;
use lines::read::{Reading, begin, ended, next};
use std::io;
use std::io::{Read, Write};

mod buffered;
mod command;
mod report;
mod run;
mod space;

// A run, and what was read of the next line.
#[derive(Clone, Copy)]
struct Script {
    run: Run,
    reading: Reading,
}

// A byte of the script. What a line prints is out before the next is read.
fn feed<W: Write>(writer: &mut W, x: Script, b: u8, space: &mut Space) -> io::Result<Script> {
    if b != b'\n' {
        let reading = next(x.reading, b, &mut space.page);
        return Ok(Script { reading, ..x });
    }
    let run = line(writer, x.run, ended(x.reading), space)?;
    writer.flush()?;
    Ok(Script {
        run,
        reading: begin(),
    })
}

// Bytes of the script, one after the other.
fn feed_all<W: Write>(
    writer: &mut W,
    x: Script,
    input: &[u8],
    space: &mut Space,
) -> io::Result<Script> {
    let mut y = x;
    for b in input {
        y = feed(writer, y, *b, space)?;
    }
    Ok(y)
}

// All of the script; the turns are more than any input has.
fn feed_input<R: Read, W: Write>(
    reader: &mut R,
    writer: &mut W,
    x: Script,
    input: &mut [u8],
    space: &mut Space,
) -> io::Result<Script> {
    let mut y = x;
    for _ in 0..u64::MAX {
        let n = reader.read(input)?;
        if n == 0 {
            return Ok(y);
        }
        y = feed_all(writer, y, &input[..n], space)?;
    }
    Ok(y)
}

fn main(rt: HostRuntime) -> io::Result<()> {
    let reader = &mut rt.stdin();
    let writer = &mut Buffered::new(rt.stdout());
    let mut space = Space::new();
    let mut input = [0u8; 4096];
    let x = Script {
        run: start(),
        reading: begin(),
    };
    let y = feed_input(reader, writer, x, &mut input, &mut space)?;
    // a last line may lack its line feed, and an empty one asks for nothing
    feed(writer, y, b'\n', &mut space)?;
    Ok(())
}
