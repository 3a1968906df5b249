// The tests before an event at a client, in the order of the refusals.
ghost use Rattle.std.specs.Prelude.{◌≡◌, true, ◌&&◌, ◌-◌, ◌*◌, ◌≤◌, leb, ltb, length};
ghost use Rattle.parties.specs.protocol.Measures.{passes, row_size};
ghost use Rattle.parties.specs.protocol.ClientEvents.{room_size};
ghost use Rattle.parties.specs.client.Record.{area_size};
ghost use Rattle.parties.specs.client.Gate.{Gated};

use crate::client::form::{area_size, sound};
use crate::protocol::measures::Passed;
use crate::records::form::row_size;
use crate::{Measures, Phase, Refusal};

// The room that a client's events want.
pub fn room_size(s: Passed) -> usize
    ensures { result ≡ room_size s.measures }
{
    let row = row_size(s);
    row + (6 + s.measures.n * s.measures.f)
}

// The measures pass, and an area of this length is long enough.
pub fn area_long(s: Measures, area: usize) -> bool
    ensures { result ≡ (passes s && leb (area_size s) area) }
{
    if !s.pass() {
        return false;
    }
    let size = area_size(Passed { measures: s });
    size <= area
}

// The same of an area and a room.
pub fn area_and_room_long(s: Measures, area: usize, room: usize) -> bool
    ensures { result ≡ (passes s && (leb (area_size s) area && leb (room_size s) room)) }
{
    if !area_long(s, area) {
        return false;
    }
    let size = room_size(Passed { measures: s });
    size <= room
}

// The same of an area, rows and a room.
pub fn area_rows_and_room_long(s: Measures, area: usize, rows: usize, room: usize) -> bool
    ensures { result ≡ (passes s && (leb (area_size s) area && (leb (s.m * row_size s) rows && leb (room_size s) room))) }
{
    if !area_and_room_long(s, area, room) {
        return false;
    }
    let size = row_size(Passed { measures: s });
    s.m * size <= rows
}

// The same of an area, a room, and an output that holds a page.
pub fn area_room_and_output_long(s: Measures, area: usize, room: usize, out: usize) -> bool
    ensures { result ≡ (passes s && (leb (area_size s) area && (leb (room_size s) room && leb (s.k * s.f - 4) out))) }
{
    if !area_and_room_long(s, area, room) {
        return false;
    }
    s.k * s.f - 4 <= out
}

// There are a client and a node of these numbers.
pub fn numbered(s: Measures, own: usize, i: usize) -> bool
    ensures { result ≡ (ltb own s.m && (leb 1 i && leb i s.n)) }
{
    if s.m <= own {
        return false;
    }
    if i < 1 {
        return false;
    }
    i <= s.n
}

// Whether lent slices are long enough and numbers within bounds is told; then the record's form is tested.
pub fn admit(s: Measures, enough: bool, within: bool, p: Phase, area: &[u8]) -> Result<(), Refusal>
    requires { enough ≡ true → area_size s ≤ length area.now }
    ensures { Gated s p area.now enough within result }
{
    if !s.pass() {
        return Err(Refusal::Measures);
    }
    if !enough {
        return Err(Refusal::Short);
    }
    if !within {
        return Err(Refusal::Number);
    }
    if !sound(Passed { measures: s }, p, area) {
        return Err(Refusal::Form);
    }
    Ok(())
}
