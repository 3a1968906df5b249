// A session from a reader's bytes to a writer.
ghost use Rattle.std.specs.Prelude.{◌≡◌, ◌<◌, ◌≤◌, length, take, IfOk, OnOk, OnErr};
ghost use Rattle.std.specs.Io.KnownBytes.{Appends, Consumes, IsAtEnd};
ghost use Rattle.session.specs.Settle.{lent_of, SameSlices};
ghost use Rattle.session.specs.Session.{held_in, FeedsAll, FeedsSome, Gives, FeedsInput, FeedsPart, Closed, Closing};

use crate::session::{Answer, OVER, Session, close, feed};
use crate::space::Slices;
use std::io;
use std::io::{Read, Write};

// The answer's line is written.
fn put<W: Write>(writer: &mut W, a: Answer, text: &[u8]) -> io::Result<Session>
    ensures session { IfOk result (λ y. y ≡ a.session) }
    ensures line { OnOk result (a.len ≤ length text.now → Appends (W.contents writer.old) (W.contents writer.new) (take a.len text.now)) }
    ensures due { OnErr result ((0 < a.len) × (a.len ≤ length text.now)) }
{
    // Of no bytes a writer need not say that they are written.
    if 0 < a.len && a.len <= text.len() {
        writer.write_all(&text[..a.len])?;
    }
    Ok(a.session)
}

// Bytes of the input, one after the other, up to the first whose line cannot be written.
pub fn feed_all<W: Write>(
    writer: &mut W,
    x: Session,
    input: &[u8],
    lent: &mut Slices<'_>,
    page: &mut [u8],
) -> io::Result<Session>
    ensures same { SameSlices lent.old lent.new }
    ensures all { IfOk result (λ y. FeedsAll (held_in x lent.old page.old) input.now
        (held_in y lent.new page.new)) }
    ensures some { OnErr result (FeedsSome (held_in x lent.old page.old) input.now
        (lent_of lent.new) page.new lent.new.text.now) }
{
    let mut y = x;
    for b in input {
        let a = feed(y, *b, lent, page);
        let text = &mut *lent.text;
        y = put(writer, a, text)?;
    }
    Ok(y)
}

// More of the input, at most so many bytes; nothing is read once a first line was refused.
fn more<R: Read>(reader: &mut R, stage: u8, most: usize, input: &mut [u8]) -> io::Result<usize>
    ensures gives { IfOk result (λ n. (n ≤ most) × (n ≤ length input.new) × (stage ≡ 2 → (n ≡ 0) × (input.new ≡ input.old))
        × ((stage ≡ 2 → ⊥) → Gives most input.old input.new n)) }
    ensures bytes { IfOk result (λ n. Consumes (R.remaining reader.old) (R.remaining reader.new) (take n input.new)) }
    ensures end { IfOk result (λ n. n ≡ 0 → 0 < most → 0 < length input.new → (stage ≡ 2 → ⊥) → IsAtEnd (R.remaining reader.new)) }
    ensures fails { OnErr result ((stage ≡ 2 → ⊥) × Gives most input.old input.new 0) }
{
    if stage == OVER {
        return Ok(0);
    }
    if input.len() <= most {
        return reader.read(input);
    }
    reader.read(&mut input[..most])
}

#[derive(Clone, Copy)]
pub struct Fed {
    pub session: Session,
    // How many bytes were not read.
    pub left: usize,
}

// At most so many bytes of the input, until it ends or a first line was refused; or up to a read or a write that fails.
pub fn feed_input<R: Read, W: Write>(
    reader: &mut R,
    writer: &mut W,
    x: Session,
    most: usize,
    input: &mut [u8],
    lent: &mut Slices<'_>,
    page: &mut [u8],
) -> io::Result<Fed>
    ensures same { SameSlices lent.old lent.new }
    ensures all { IfOk result (λ r. FeedsInput (held_in x lent.old page.old) input.old most
        (held_in r.session lent.new page.new) input.new r.left) }
    ensures part { OnErr result (FeedsPart (held_in x lent.old page.old) input.old most
        (lent_of lent.new) page.new lent.new.text.now input.new) }
{
    let mut y = x;
    let mut left = most;
    while 0 < left {
        let n = more(reader, y.stage, left, input)?;
        if n == 0 {
            return Ok(Fed { session: y, left });
        }
        y = feed_all(writer, y, &input[..n], lent, page)?;
        left -= n;
    }
    Ok(Fed { session: y, left })
}

// The end of the input. Also where its line cannot be written, the session is closed.
pub fn end<W: Write>(
    writer: &mut W,
    x: Session,
    lent: &mut Slices<'_>,
    page: &[u8],
) -> io::Result<Session>
    ensures same { SameSlices lent.old lent.new }
    ensures closed { IfOk result (λ y. Closed (held_in x lent.old page.now)
        (held_in y lent.new page.now)) }
    ensures closing { OnErr result (Closing (held_in x lent.old page.now)
        (lent_of lent.new) page.now lent.new.text.now) }
{
    let a = close(x, lent, page);
    let text = &mut *lent.text;
    put(writer, a, text)
}
