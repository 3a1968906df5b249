// Acknowledgements of a version's stores.
ghost use Rattle.std.specs.Prelude.{◌≡◌, true, not, ◌&&◌, List, ℕ, ◌+◌, ◌≤◌, length, Ok};
ghost use Rattle.parties.specs.protocol.Measures.{passes};
ghost use Rattle.parties.specs.protocol.Nodes.{stands as standing, count as counted, with_node};
ghost use Rattle.parties.specs.protocol.Reading.{same_version};
ghost use Rattle.parties.specs.protocol.Client.{storing_step, read_client};
ghost use Rattle.parties.specs.protocol.ClientEvents.{room_size};
ghost use Rattle.parties.specs.client.End.{step_end};
ghost use Rattle.parties.specs.client.Record.{record_of, is_some, work_at};
ghost use Rattle.parties.specs.records.Places.{version_at, number_at};
ghost use Rattle.parties.specs.client.Publish.{stored_end};

use crate::client::form::work_at;
use crate::client::publish::{form_pointer, put_update};
use crate::client::step::STORING;
use crate::protocol::measures::Passed;
use crate::records::bytes::{put_u16, u16_at};
use crate::records::nodes::{count, stands, with_node};
use crate::records::version::{same_version, version_at};
use crate::{ClientAnswer, Phase, Version};

// The work stores this version, and the node is not among those that acknowledged it.
fn adds(i: usize, v: Version, area: &[u8], at: usize) -> bool
    requires { (1 ≤ i) × (i ≤ 16) × (at + 7 ≤ length area.now) }
    ensures { result ≡ (same_version v (version_at area.now at) && not (standing (number_at area.now (at + 5)) i)) }
{
    let w = version_at(area, at);
    if !same_version(v, w) {
        return false;
    }
    !stands(u16_at(area, at + 5), i)
}

// With the last node the pointer is formed, and its update called; node, version and phase are for the contract alone.
fn publish(
    s: Passed,
    i: usize,
    v: Version,
    p: Phase,
    area: &mut [u8],
    room: &mut [u8],
    map: u16,
) -> ClientAnswer
    requires { (1 ≤ i) × (i ≤ s.measures.n) × (is_some (read_client s.measures (record_of p area.old)) ≡ true) × (room_size s.measures ≤ length room.old)
        × (p.step ≡ storing_step) × ((same_version v (version_at area.old (work_at s.measures)) && not (standing (number_at area.old (work_at s.measures + 5)) i)) ≡ true)
        × (map ≡ with_node (number_at area.old (work_at s.measures + 5)) i) × (s.measures.t + s.measures.k ≤ counted map) }
    ensures { (out : List ℕ) → step_end p (Ok result) area.new room.new out ≡ stored_end s.measures i v (record_of p area.old) room.old out }
{
    let at = work_at(s);
    form_pointer(s, map, area, at);
    let len = put_update(s, area, room);
    ClientAnswer::Update(len)
}

// A node acknowledged the store of a version: it is added once; at t + k nodes the pointer is published.
pub fn acknowledge(
    s: Passed,
    i: usize,
    v: Version,
    p: Phase,
    area: &mut [u8],
    room: &mut [u8],
) -> ClientAnswer
    requires { (1 ≤ i) × (i ≤ s.measures.n) × (is_some (read_client s.measures (record_of p area.old)) ≡ true) × (room_size s.measures ≤ length room.old) }
    ensures { (out : List ℕ) → step_end p (Ok result) area.new room.new out ≡ stored_end s.measures i v (record_of p area.old) room.old out }
{
    if p.step != STORING {
        return ClientAnswer::Waits;
    }
    let at = work_at(s);
    if !adds(i, v, area, at) {
        return ClientAnswer::Waits;
    }
    let map = with_node(u16_at(area, at + 5), i);
    if count(map) < s.measures.t + s.measures.k {
        put_u16(area, at + 5, map);
        return ClientAnswer::Waits;
    }
    publish(s, i, v, p, area, room, map)
}
