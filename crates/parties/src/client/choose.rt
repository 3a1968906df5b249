// A reading's scan: which pointer each row offers, and which of them is picked.
ghost use Rattle.std.specs.Prelude.{◌≡◌, true, cond, [], ◌++◌, ◌+◌, ◌-◌, ◌*◌, ◌≤◌, ◌<◌, length, drop, replicate, Ok};
ghost use Rattle.std.proofs.Math.Option.{some};
ghost use Rattle.parties.specs.protocol.Measures.{row_size};
ghost use Rattle.parties.specs.protocol.Format.{read_many};
ghost use Rattle.parties.specs.protocol.Version.{below};
ghost use Rattle.parties.specs.protocol.Pointer.{read_pointer, write_pointer};
ghost use Rattle.parties.specs.protocol.Directory.{read_row, read_directory};
ghost use Rattle.parties.specs.protocol.Reading.{pick};
ghost use Rattle.parties.specs.protocol.Message.{ToNode, write_to_node};
ghost use Rattle.parties.specs.protocol.Client.{picking_step, read_client};
ghost use Rattle.parties.specs.protocol.ClientEvents.{lay, room_size};
ghost use Rattle.parties.specs.records.Form.{rest};
ghost use Rattle.parties.specs.client.End.{step_end};
ghost use Rattle.parties.specs.client.Record.{record_of, is_some};
ghost use Rattle.parties.specs.records.Places.{version_at, splice};
ghost use Rattle.parties.specs.client.Draw.{rows_of};
ghost use Rattle.parties.specs.client.Choose.{offered, fetch_end};

use crate::client::form::{work_at, work_size};
use crate::client::pick::picked;
use crate::protocol::measures::Passed;
use crate::protocol::tags::REQUEST;
use crate::records::bytes::{clear, copy, u16_at, u32_at};
use crate::records::form::{Rule, pointers, row_size};
use crate::records::version::version_at;
use crate::{ClientAnswer, Phase, ReadingIndex, Version};

// A row, by its place, and the version of the pointer that it offers.
#[derive(Clone, Copy)]
pub struct Offer {
    pub row: usize,
    pub version: Version,
}

// The place after n pointers that stand there.
pub fn past(s: Passed, n: usize, t: &[u8], at: usize) -> usize
    requires { (at ≤ length t.now) × (is_some (read_many (read_pointer s.measures) n (drop at t.now)) ≡ true) }
    ensures { (rest (read_many (read_pointer s.measures) n (drop at t.now)) ≡ some (drop result t.now)) × (result ≤ length t.now) }
{
    // The other value is not reached: the pointers read.
    pointers(s, Rule::Proper, n, t, at).unwrap_or(at)
}

// The pointer that the row at a place offers: the written one, or the one frozen for this client.
pub fn candidate_at(s: Passed, own: usize, index: ReadingIndex, rows: &[u8], at: usize) -> &[u8]
    requires { (own < s.measures.m) × (at + row_size s.measures ≤ length rows.now) × (is_some (read_row s.measures (drop at rows.now)) ≡ true) }
    ensures { result.now ≡ write_pointer (offered s.measures own index rows.now at) }
{
    let written = at + 1;
    let frozen = past(s, own + 1, rows, written);
    let indices = past(s, s.measures.m - own, rows, frozen);
    let i = u32_at(rows, indices + 4 * own);
    let w = &rows[written..];
    let f = &rows[frozen..];
    picked(w, f, index, ReadingIndex(i))
}

fn offer_at(s: Passed, own: usize, index: ReadingIndex, rows: &[u8], at: usize) -> Offer
    requires { (own < s.measures.m) × (at + row_size s.measures ≤ length rows.now) × (is_some (read_row s.measures (drop at rows.now)) ≡ true) }
    ensures { result ≡ record { row = at; version = (offered s.measures own index rows.now at).version } }
{
    let p = candidate_at(s, own, index, rows, at);
    let version = version_at(p, 0);
    Offer { row: at, version }
}

// The offer of a row, unless it is below the best of the rows after it.
fn better(best: Offer, new: Offer) -> Offer
    ensures { result ≡ cond (below new.version best.version) best new }
{
    if new.version.below(best.version) {
        return best;
    }
    new
}

// The place of the row whose offer a reading picks: from the last row to the first, so that on a tie the lowest row's wins.
pub fn pick_row(s: Passed, own: usize, index: ReadingIndex, rows: &[u8]) -> usize
    requires { (own < s.measures.m) × (s.measures.m * row_size s.measures ≤ length rows.now) × (is_some (read_directory s.measures rows.now) ≡ true) }
    ensures { (offered s.measures own index rows.now result ≡ pick own index (rows_of (read_directory s.measures rows.now)))
        × (result + row_size s.measures ≤ length rows.now) × (is_some (read_row s.measures (drop result rows.now)) ≡ true) }
{
    let size = row_size(s);
    let last = s.measures.m - 1;
    let mut best = offer_at(s, own, index, rows, last * size);
    for i in (0..last).rev() {
        let new = offer_at(s, own, index, rows, i * size);
        best = better(best, new);
    }
    best.row
}

// The request for the version of a pointer, at the front of a room.
pub fn put_request(room: &mut [u8], p: &[u8])
    requires { (6 ≤ length room.old) × (5 ≤ length p.now) }
    ensures { room.new ≡ lay (write_to_node (ToNode.request (version_at p.now 0))) room.old }
{
    room[0] = REQUEST;
    copy(room, 1, p, 0, 5);
}

// A pointer at the front of an area, and zeros after it: no reply is counted, and no piece is there.
pub fn put_fetched(area: &mut [u8], at: usize, size: usize, p: &[u8])
    requires { (length p.now ≤ size) × (at + size ≤ length area.old) }
    ensures { area.new ≡ splice area.old at (p.now ++ replicate (size - length p.now) 0) }
{
    let n = p.len();
    copy(area, at, p, 0, n);
    clear(area, at + n, at + size);
}

// The scan's answer of a reading: the picked pointer is fetched, or the reading ends empty.
pub fn fetch(
    s: Passed,
    own: usize,
    p: Phase,
    area: &mut [u8],
    rows: &[u8],
    room: &mut [u8],
) -> ClientAnswer
    requires { (own < s.measures.m) × (p.step ≡ picking_step) × (is_some (read_client s.measures (record_of p area.old)) ≡ true)
        × (s.measures.m * row_size s.measures ≤ length rows.now) × (is_some (read_directory s.measures rows.now) ≡ true) × (room_size s.measures ≤ length room.old) }
    ensures { step_end p (Ok result) area.new room.new [] ≡ fetch_end s.measures own (record_of p area.old) rows.now room.old }
{
    let reading = p.reading;
    let row = pick_row(s, own, reading, rows);
    let found = candidate_at(s, own, reading, rows, row);
    let version = version_at(found, 0);
    if version.is_none() {
        return ClientAnswer::Empty;
    }
    let nodes = u16_at(found, 5);
    let at = work_at(s);
    let size = work_size(s);
    put_request(room, found);
    put_fetched(area, at, size, found);
    ClientAnswer::Requests(version, nodes)
}
