// A deposit's free list: the versions that its second scan replaces, but those that are still frozen or reserved.
ghost use Rattle.std.specs.Prelude.{◌≡◌, true, ◌||◌, [], ◌∷◌, ◌+◌, ◌-◌, ◌*◌, ◌<◌, ◌≤◌, length, get_or, take, drop};
ghost use Rattle.coding.specs.Bytes.{Bytes};
ghost use Rattle.parties.specs.protocol.Measures.{passes};
ghost use Rattle.parties.specs.protocol.Version.{no_version};
ghost use Rattle.parties.specs.protocol.Pointer.{none_pointer, write_version};
ghost use Rattle.parties.specs.protocol.Node.{listed};
ghost use Rattle.parties.specs.protocol.Message.{ToNode, write_to_node};
ghost use Rattle.parties.specs.protocol.Client.{read_retained};
ghost use Rattle.parties.specs.protocol.ClientEvents.{room_size, lay};
ghost use Rattle.parties.specs.client.Record.{work_at, is_some};
ghost use Rattle.parties.specs.records.Places.{splice};
ghost use Rattle.parties.specs.client.Found.{retained_in};
ghost use Rattle.parties.specs.client.Freeze.{kept_versions, freed_by, frozen_now, reserved_now};
ghost use Rattle.parties.specs.client.FreeList.{Holds, Added, Adds, Listing, Frees, freed_up_to};

use crate::Version;
use crate::client::draw::put_version;
use crate::protocol::measures::Passed;
use crate::protocol::tags::FREE;
use crate::records::bytes::move_up;
use crate::records::form::pointer_size;
use crate::records::nodes::stands;
use crate::records::places;
use crate::records::version::{same_version, version_at};

// What a deposit's second scan goes by: what the area retains, the clients whose reading is noticed, and the new version.
#[derive(Clone, Copy)]
struct Noticed<'a> {
    s: Passed,
    area: &'a [u8],
    map: u16,
    new: Version,
    ghost bytes: { Bytes area.now },
    ghost holds: { Holds s.measures area.now },
}

// The versions from place j on go up by one, and v stands there.
fn put_in(room: &mut [u8], count: usize, j: usize, v: Version)
    requires { (j ≤ count) × (6 + count * 5 ≤ length room.old) }
    ensures { room.new ≡ splice (splice room.old (6 + j * 5) (take ((count - j) * 5) (drop (1 + j * 5) room.old))) (1 + j * 5) (write_version v) }
{
    let at = 1 + j * 5;
    move_up(room, at, 1 + count * 5, 5);
    put_version(room, at, v);
}

// A version in its place in the list of count versions, once; the count after it.
fn add_version(room: &mut [u8], count: usize, v: Version) -> usize
    requires { 6 + count * 5 ≤ length room.old }
    ensures { Added v count room.old result room.new }
{
    let j = places::seek(5, room, 1, count, v);
    if places::stands(5, room, 1, count, j, v) {
        return count;
    }
    put_in(room, count, j, v);
    count + 1
}

impl Noticed<'_> {
    fn written(&self) -> Version
        ensures { result ≡ (retained_in self.now.s.measures self.now.area.now).written.version }
    {
        version_at(self.area, 0)
    }

    fn frozen(&self, q: usize) -> Version
        requires { q < self.now.s.measures.m }
        ensures { result ≡ (get_or (retained_in self.now.s.measures self.now.area.now).frozen q none_pointer).version }
    {
        let size = pointer_size(self.s);
        version_at(self.area, (q + 1) * size)
    }

    fn reserved(&self, q: usize) -> Version
        requires { q < self.now.s.measures.m }
        ensures { result ≡ get_or (retained_in self.now.s.measures self.now.area.now).reserved q no_version }
    {
        let size = pointer_size(self.s);
        version_at(self.area, (self.s.measures.m + 1) * size + 5 * q)
    }

    // What is frozen and reserved for client q after the scan.
    fn frozen_now(&self, q: usize) -> Version
        requires { q < self.now.s.measures.m }
        ensures { result ≡ frozen_now self.now.map (retained_in self.now.s.measures self.now.area.now) self.now.new q }
    {
        if stands(self.map, q + 1) {
            self.new
        } else {
            self.frozen(q)
        }
    }

    fn reserved_now(&self, q: usize) -> Version
        requires { q < self.now.s.measures.m }
        ensures { result ≡ reserved_now self.now.map (retained_in self.now.s.measures self.now.area.now) q }
    {
        if stands(self.map, q + 1) {
            self.written()
        } else {
            self.reserved(q)
        }
    }

    fn keeps_for(&self, q: usize, v: Version) -> bool
        requires { q < self.now.s.measures.m }
        ensures { result ≡ (listed v (frozen_now self.now.map (retained_in self.now.s.measures self.now.area.now) self.now.new q ∷ [])
            || listed v (reserved_now self.now.map (retained_in self.now.s.measures self.now.area.now) q ∷ [])) }
    {
        let frozen = self.frozen_now(q);
        if same_version(v, frozen) {
            return true;
        }
        let reserved = self.reserved_now(q);
        same_version(v, reserved)
    }

    // Whether v is none, or still frozen or reserved for any client.
    fn keeps(&self, v: Version) -> bool
        ensures { result ≡ listed v (no_version ∷ kept_versions self.now.s.measures self.now.map (retained_in self.now.s.measures self.now.area.now) self.now.new) }
    {
        if v.is_none() {
            return true;
        }
        for q in 0..self.s.measures.m {
            if self.keeps_for(q, v) {
                return true;
            }
        }
        false
    }

    // A version goes into the list, but for one that is kept; the count after it.
    fn free_version(&self, room: &mut [u8], count: usize, v: Version) -> usize
        requires { 6 + count * 5 ≤ length room.old }
        ensures { Adds (listed v (no_version ∷ kept_versions self.now.s.measures self.now.map (retained_in self.now.s.measures self.now.area.now) self.now.new)) v count room.old result room.new
            × (result ≤ count + 1) }
    {
        if self.keeps(v) {
            return count;
        }
        add_version(room, count, v)
    }

    // The versions that client q's reading replaces, if it is noticed.
    fn free_client(&self, room: &mut [u8], count: usize, q: usize) -> usize
        requires { (q < self.now.s.measures.m) × (11 + count * 5 ≤ length room.old) }
        ensures { Frees self.now.s.measures self.now.map (retained_in self.now.s.measures self.now.area.now) self.now.new q count room.old result room.new }
    {
        if !stands(self.map, q + 1) {
            return count;
        }
        let reserved = self.reserved(q);
        let more = self.free_version(room, count, reserved);
        let frozen = self.frozen(q);
        self.free_version(room, more, frozen)
    }

    // The list's tag, and the previous version.
    fn start_list(&self, room: &mut [u8]) -> usize
        requires { 6 ≤ length room.old }
        ensures { Listing room.old (freed_up_to self.now.s.measures self.now.map (retained_in self.now.s.measures self.now.area.now) self.now.new 0) result room.new }
    {
        room[0] = FREE;
        let written = self.written();
        self.free_version(room, 0, written)
    }
}

// The message with the free list at the front of the room, and its length; v is the new version.
pub fn put_free_list(s: Passed, map: u16, v: Version, area: &[u8], room: &mut [u8]) -> usize
    requires { (is_some (read_retained s.measures area.now) ≡ true) × (work_at s.measures ≤ length area.now) × (room_size s.measures ≤ length room.old) }
    ensures { (result ≡ length (write_to_node (ToNode.free (freed_by s.measures map (retained_in s.measures area.now) v))))
        × (room.new ≡ lay (write_to_node (ToNode.free (freed_by s.measures map (retained_in s.measures area.now) v))) room.old) }
{
    let noticed = Noticed {
        s,
        area,
        map,
        new: v,
    };
    let start = noticed.start_list(room);
    let mut count = start;
    for q in 0..s.measures.m {
        count = noticed.free_client(room, count, q);
    }
    1 + 5 * count
}
