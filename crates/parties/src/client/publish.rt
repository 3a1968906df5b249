// The pointer that a deposit publishes, and the record of its update.
ghost use Rattle.std.specs.Prelude.{◌≡◌, true, cond, ◌++◌, ◌+◌, ◌-◌, ◌*◌, ◌^◌, ◌≤◌, ◌<◌, length, take, drop, replicate};
ghost use Rattle.std.proofs.Math.Seq.{paste};
ghost use Rattle.parties.specs.protocol.Format.{write_many};
ghost use Rattle.parties.specs.protocol.Measures.{pointer_size};
ghost use Rattle.parties.specs.protocol.Nodes.{stands as standing, count as counted};
ghost use Rattle.parties.specs.protocol.Pointer.{write_pointer};
ghost use Rattle.parties.specs.protocol.Client.{read_retained, read_some, work_size};
ghost use Rattle.parties.specs.protocol.ClientEvents.{lay, room_size};
ghost use Rattle.parties.specs.client.Record.{area_size, work_at, is_some};
ghost use Rattle.parties.specs.records.Places.{splice};
ghost use Rattle.parties.specs.client.Pick.{pointer_part};
ghost use Rattle.parties.specs.client.Found.{retained_in, pointer_in};
ghost use Rattle.parties.specs.client.Publish.{pointer_from, update_of};

use crate::client::form::{work_at, work_size};
use crate::client::pick::pointer_part;
use crate::protocol::measures::Passed;
use crate::records::bytes::{clear, copy, move_down, put_u16};
use crate::records::form::{DEPOSIT_MAP, pointer_size};
use crate::records::nodes::stands;

// The digest of node i + 1 goes down, if the map names the node; the place after it.
fn keep_digest(map: u16, i: usize, area: &mut [u8], from: usize, to: usize) -> usize
    requires { (i < 16) × (to ≤ from) × (from + 32 ≤ length area.old) }
    ensures { (result ≡ cond (standing map (i + 1)) (to + 32) to)
        × (area.new ≡ cond (standing map (i + 1)) (splice area.old to (take 32 (drop from area.old))) area.old) }
{
    if !stands(map, i + 1) {
        return to;
    }
    move_down(area, from, from + 32, from - to);
    to + 32
}

// The digests of the nodes that the map names, one behind the other. None goes up, so those to come are as they were.
fn gather(s: Passed, map: u16, area: &mut [u8], at: usize)
    requires { (map < 2 ^ s.measures.n) × (at + 7 + 32 * s.measures.n ≤ length area.old) }
    ensures { area.new
        ≡ splice area.old (at + 7) (write_many (λ d. d) (pointer_from s.measures map area.old at).named.digests) }
{
    let from = at + 7;
    let mut to = from;
    for i in 0..s.measures.n {
        to = keep_digest(map, i, area, from + 32 * i, to);
    }
}

// The work of a deposit whose stores enough nodes acknowledged: its pointer, with their digests, and spare bytes.
pub fn form_pointer(s: Passed, map: u16, area: &mut [u8], at: usize)
    requires { (map < 2 ^ s.measures.n) × (counted map ≡ s.measures.t + s.measures.k) × (at + work_size s.measures ≤ length area.old) }
    ensures { area.new
        ≡ paste area.old at (write_pointer (pointer_from s.measures map area.old at) ++ replicate (work_size s.measures - pointer_size s.measures) 0) (work_size s.measures) }
{
    let front = pointer_size(s);
    let size = work_size(s);
    gather(s, map, area, at);
    put_u16(area, at + 5, map);
    clear(area, at + front, at + size);
}

// A pointer's own bytes, and the place after them.
fn put_pointer(area: &[u8], from: usize, room: &mut [u8], at: usize) -> usize
    requires { (from ≤ length area.now) × (at + length (pointer_part (drop from area.now)) ≤ length room.old) }
    ensures { (result ≡ at + length (pointer_part (drop from area.now)))
        × (room.new ≡ splice room.old at (pointer_part (drop from area.now))) }
{
    let t = &area[from..];
    let p = pointer_part(t);
    let n = p.len();
    copy(room, at, p, 0, n);
    at + n
}

// The frozen pointers, one behind the other, and the place after them.
fn put_frozen(s: Passed, size: usize, area: &[u8], room: &mut [u8], at: usize) -> usize
    requires { (size ≡ pointer_size s.measures) × (is_some (read_retained s.measures area.now) ≡ true) × (area_size s.measures ≤ length area.now)
        × (at + s.measures.m * pointer_size s.measures ≤ length room.old) }
    ensures { (result ≡ at + length (write_many write_pointer (retained_in s.measures area.now).frozen))
        × (room.new ≡ splice room.old at (write_many write_pointer (retained_in s.measures area.now).frozen)) }
{
    let mut end = at;
    for q in 0..s.measures.m {
        end = put_pointer(area, (q + 1) * size, room, end);
    }
    end
}

// The record of a deposit's update at the front of the room, and its length: the new pointer, and what is frozen.
pub fn put_update(s: Passed, area: &[u8], room: &mut [u8]) -> usize
    requires { (is_some (read_retained s.measures area.now) ≡ true) × (is_some (read_some s.measures (drop (work_at s.measures) area.now)) ≡ true)
        × (area_size s.measures ≤ length area.now) × (room_size s.measures ≤ length room.old) }
    ensures { (result ≡ length (update_of (retained_in s.measures area.now) (pointer_in s.measures area.now)))
        × (room.new ≡ lay (update_of (retained_in s.measures area.now) (pointer_in s.measures area.now)) room.old) }
{
    let size = pointer_size(s);
    let at = work_at(s);
    let n = 4 * s.measures.m;
    room[0] = DEPOSIT_MAP;
    copy(room, 1, area, at, size);
    let end = put_frozen(s, size, area, room, 1 + size);
    copy(room, end, area, at - n, n);
    end + n
}
