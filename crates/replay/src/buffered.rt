// A writer behind a fixed array, so that what a line prints goes out in one write.
ghost use Rattle.std.specs.Prelude.{◌≡◌, ◌+◌, ◌<◌, ◌≤◌, ◌++◌, IfOk, OnOk, length, take};
ghost use Rattle.std.specs.Io.{WritesAtMost};
ghost use Rattle.std.specs.Io.KnownBytes.{Appends, Keeps, WriteAppends};

use std::io;
use std::io::Write;

#[derive(Drop)]
pub struct Buffered<W> {
    writer: W,
    // No line is that long: a table shown takes 2,700 bytes at most, a page 2,100.
    bytes: [u8; 4096],
    // How many of them are held.
    len: usize,
    ghost within: { len ≤ 4096 },
}

impl<W: Write> Buffered<W> {
    ghost use Rattle.replay.specs.Buffered.{held};

    pub fn new(writer: W) -> Buffered<W>
        ensures writer { result.writer ≡ writer }
        ensures empty { result.len ≡ 0 }
    {
        Buffered {
            writer,
            bytes: [0; 4096],
            len: 0,
        }
    }

    // What is held goes out.
    fn hand_over(&mut self) -> io::Result<()>
        ensures empty { self.new.len ≡ 0 }
        ensures out { OnOk result (Keeps (held W.contents self.old) (W.contents self.new.writer)) }
    {
        let len = self.len;
        self.len = 0;
        self.writer.write_all(&self.bytes[..len])
    }

    // For a byte at least.
    fn make_room(&mut self) -> io::Result<()>
        ensures room { OnOk result (self.new.len < 4096) }
        ensures kept { OnOk result (Keeps (held W.contents self.old) (held W.contents self.new)) }
    {
        if self.len == self.bytes.len() {
            self.hand_over()?;
        }
        Ok(())
    }

    // Bytes for which there is room are held after the others.
    fn hold(&mut self, b: &[u8])
        requires { self.old.len + length b.now ≤ 4096 }
        ensures { Appends (held W.contents self.old) (held W.contents self.new) b.now }
    {
        let to = self.len + b.len();
        self.bytes[self.len..to].copy_from_slice(b);
        self.len = to;
    }
}

impl<W: Write> Write for Buffered<W> {
    ghost use Rattle.replay.specs.Buffered.{held};

    // As many of the bytes as there is room for.
    fn write(&mut self, buf: &[u8]) -> io::Result<usize>
        ensures bound { WritesAtMost result buf.now }
        ensures bytes { WriteAppends None None result buf.now }
        ensures some { IfOk result (λ n. 0 < length buf.now → 0 < n) }
        ensures ok { IfOk result (λ n. Appends (held W.contents self.old) (held W.contents self.new) (take n buf.now)) }
    {
        self.make_room()?;
        let n = buf.len().min(self.bytes.len() - self.len);
        self.hold(&buf[..n]);
        Ok(n)
    }

    fn flush(&mut self) -> io::Result<()>
        ensures bytes { Keeps None None }
        ensures ok { OnOk result (Keeps (held W.contents self.old) (W.contents self.new.writer)) }
    {
        self.hand_over()?;
        self.writer.flush()
    }
}
