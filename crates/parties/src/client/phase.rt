// The phase in a record's first five bytes.
ghost use Rattle.std.specs.Prelude.{◌≡◌, ◌≤◌, length, drop};
ghost use Rattle.parties.specs.client.Record.{record_of};

use crate::records::bytes::{put_u32, u32_at};
use crate::{Phase, ReadingIndex};

pub(crate) fn phase_of(client: &[u8]) -> Phase
    requires { 5 ≤ length client.now }
    ensures { client.now ≡ record_of result (drop 5 client.now) }
{
    let i = u32_at(client, 1);
    Phase {
        step: client[0],
        reading: ReadingIndex(i),
    }
}

pub(crate) fn put_phase(client: &mut [u8], p: Phase)
    requires { 5 ≤ length client.old }
    ensures { client.new ≡ record_of p (drop 5 client.old) }
{
    let i = p.reading;
    client[0] = p.step;
    put_u32(client, 1, i.0);
}
