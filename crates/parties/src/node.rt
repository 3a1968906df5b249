// A data node's events on its lent table.
ghost use Rattle.std.specs.Prelude.{◌≡◌, true, ◌∷◌, ◌+◌, ◌-◌, ◌*◌, ◌/◌, ◌<◌, ◌≤◌, length, get_or, take, drop};
ghost use Rattle.parties.specs.protocol.Measures.{places, place_size};
ghost use Rattle.parties.specs.protocol.Version.{no_version};
ghost use Rattle.parties.specs.protocol.Message.{store_tag, request_tag, free_tag};
ghost use Rattle.parties.specs.protocol.NodeEvents.{node_fresh, node_message, table_size};
ghost use Rattle.parties.specs.Answer.{served};
ghost use Rattle.parties.specs.records.Places.{number_at, sound_at, sound_from, sound_table, splice, place_of, version_alone};
ghost use Rattle.parties.specs.node.ToNode.{store_sound};
ghost use Rattle.parties.specs.node.NodeCode.{NodeReady, Ends, event, brought_by, inserted, list_behind, list_names, Listed, Released};

use crate::message::{free_sound, store_sound};
use crate::protocol::measures::Passed;
use crate::protocol::tags::{FREE, FREED, REPLY, REQUEST, STORE, STORED};
use crate::protocol::version::NONE;
use crate::records::bytes::{clear, copy, move_down, move_up, put_u16, u16_at, zero_run};
use crate::records::places::{seek, stands};
use crate::records::version::{proper_at, version_alone, version_at};
use crate::{Measures, Refusal, Version};

// The length in the two bytes at a place.
fn length_at(t: &[u8], at: usize) -> usize
    requires { at + 2 ≤ length t.now }
    ensures { (result ≡ number_at t.now at) × (result < 65536) }
{
    u16_at(t, at) as usize
}

// A filled place has a proper version, a piece of 1 to F bytes, and zeros after it.
fn place_sound(s: Measures, t: &[u8], at: usize) -> bool
    requires { at + place_size s ≤ length t.now }
    ensures { result ≡ sound_at s t.now at }
{
    if !proper_at(s, t, at) {
        return false;
    }
    let len = length_at(t, at + 5);
    if len < 1 {
        return false;
    }
    if s.f < len {
        return false;
    }
    zero_run(t, at + 7 + len, at + 7 + s.f)
}

// The filled places, each with a version above the one before. It differs from the walk over a message's list by the test of a place; one
// function for both would take that as a closure, and the clauses on its calls are longer than the loop.
fn places_sound(s: Measures, t: &[u8], count: usize) -> bool
    requires { 2 + count * place_size s ≤ length t.now }
    ensures { result ≡ sound_from s t.now no_version 2 count }
{
    let mut previous = NONE;
    for i in 0..count {
        let at = 2 + i * (7 + s.f);
        if !place_sound(s, t, at) {
            return false;
        }
        let v = version_at(t, at);
        if !previous.below(v) {
            return false;
        }
        previous = v;
    }
    true
}

// The form of a table: count, filled places, zeros.
fn table_sound(s: Passed, t: &[u8]) -> bool
    requires { 2 + places s.measures * place_size s.measures ≤ length t.now }
    ensures { result ≡ sound_table s.measures t.now }
{
    let count = length_at(t, 0);
    let places = 2 * (s.measures.m * s.measures.m);
    if places < count {
        return false;
    }
    if !places_sound(s.measures, t, count) {
        return false;
    }
    let end = table_size(s);
    zero_run(t, 2 + count * (7 + s.measures.f), end)
}

// A tag, and the version that the message names.
fn put_head(room: &mut [u8], tag: u8, b: &[u8])
    requires { (6 ≤ length room.old) × (6 ≤ length b.now) }
    ensures { room.new ≡ splice room.old 0 (tag ∷ take 5 (drop 1 b.now)) }
{
    room[0] = tag;
    copy(room, 1, b, 1, 5);
}

// The place of the piece that the message brings.
fn put_place(s: Measures, t: &mut [u8], at: usize, b: &[u8])
    requires { (at + place_size s ≤ length t.old) × (7 ≤ length b.now) × (length b.now ≤ 6 + s.f) × (s.f ≤ 4096) }
    ensures { t.new ≡ splice t.old at (place_of s (brought_by b.now)) }
{
    let len = b.len() - 6;
    copy(t, at, b, 1, 5);
    put_u16(t, at + 5, len as u16);
    copy(t, at + 7, b, 6, len);
    clear(t, at + 7 + len, at + 7 + s.f);
}

// The places from `at` on go up by one.
fn insert(s: Measures, t: &mut [u8], count: usize, at: usize, b: &[u8])
    requires { (at ≤ 2 + count * place_size s) × (2 ≤ at) × (2 + count * place_size s + place_size s ≤ length t.old) × (count < 65535) × (7 ≤ length b.now) × (length b.now ≤ 6 + s.f) × (s.f ≤ 4096) }
    ensures { t.new ≡ inserted s t.old at (2 + count * place_size s) (brought_by b.now) (count + 1) }
{
    let z = 7 + s.f;
    move_up(t, at, 2 + count * z, z);
    put_place(s, t, at, b);
    put_u16(t, 0, (count + 1) as u16);
}

// A piece is kept in its version's place; 8 for a new version at a full table.
fn keep(s: Measures, t: &mut [u8], b: &[u8], room: &mut [u8]) -> Result<usize, Refusal>
    requires { NodeReady s t.old room.old × (1 ≤ length b.now) × (get_or b.now 0 0 ≡ store_tag) × (store_sound s b.now ≡ true) }
    ensures { Ends (event s t.old b.now room.old) (served result) t.new room.new }
{
    let z = 7 + s.f;
    let count = length_at(t, 0);
    let v = version_at(b, 1);
    let j = seek(z, t, 2, count, v);
    let at = 2 + j * z;
    if stands(z, t, 2, count, j, v) {
        put_place(s, t, at, b);
        put_head(room, STORED, b);
        return Ok(6);
    }
    if 2 * (s.m * s.m) <= count {
        return Err(Refusal::Full);
    }
    insert(s, t, count, at, b);
    put_head(room, STORED, b);
    Ok(6)
}

fn store(s: Measures, t: &mut [u8], b: &[u8], room: &mut [u8]) -> Result<usize, Refusal>
    requires { NodeReady s t.old room.old × (1 ≤ length b.now) × (get_or b.now 0 0 ≡ store_tag) }
    ensures { Ends (event s t.old b.now room.old) (served result) t.new room.new }
{
    if !store_sound(s, b) {
        return Err(Refusal::Form);
    }
    keep(s, t, b, room)
}

// A piece is handed back, or "not held".
fn hand_back(s: Measures, t: &[u8], b: &[u8], room: &mut [u8]) -> Result<usize, Refusal>
    requires { NodeReady s t.now room.old × (1 ≤ length b.now) × (get_or b.now 0 0 ≡ request_tag) × (version_alone s b.now ≡ true) }
    ensures { Ends (event s t.now b.now room.old) (served result) t.now room.new }
{
    let z = 7 + s.f;
    let count = length_at(t, 0);
    let v = version_at(b, 1);
    let j = seek(z, t, 2, count, v);
    put_head(room, REPLY, b);
    if !stands(z, t, 2, count, j, v) {
        room[6] = 0;
        return Ok(7);
    }
    let at = 2 + j * z;
    let len = length_at(t, at + 5);
    room[6] = 1;
    copy(room, 7, t, at + 7, len);
    Ok(7 + len)
}

fn request(s: Measures, t: &[u8], b: &[u8], room: &mut [u8]) -> Result<usize, Refusal>
    requires { NodeReady s t.now room.old × (1 ≤ length b.now) × (get_or b.now 0 0 ≡ request_tag) }
    ensures { Ends (event s t.now b.now room.old) (served result) t.now room.new }
{
    if !version_alone(s, b) {
        return Err(Refusal::Form);
    }
    hand_back(s, t, b, room)
}

// The next listed version is below v.
fn list_behind(v: Version, b: &[u8], at: usize, listed: usize) -> bool
    requires { at + listed * 5 ≤ length b.now }
    ensures { result ≡ list_behind v b.now at listed }
{
    0 < listed && version_at(b, at).below(v)
}

// The next listed version is v.
fn list_names(v: Version, b: &[u8], at: usize, listed: usize) -> bool
    requires { at + listed * 5 ≤ length b.now }
    ensures { result ≡ list_names v b.now at listed }
{
    0 < listed && version_at(b, at) == v
}

// Places go down; those before the first that is dropped stay where they are.
fn lower(t: &mut [u8], from: usize, to: usize, z: usize)
    requires { (to ≤ from) × (from + z ≤ length t.old) }
    ensures { t.new ≡ splice t.old to (take z (drop from t.old)) }
{
    if from == to {
        return;
    }
    move_down(t, from, from + z, from - to);
}

// Places that are not listed go down over those that are, each run of them by one move: those from `run` on are still to go down to `to`.
// Places and list ascend: one walk goes along both. The loop is a `while`, since a step goes on along the list or along the places, and a
// `for` over either would need another loop inside.
fn release(s: Measures, t: &mut [u8], b: &[u8], count: usize, listed: usize) -> usize
    requires { Listed s t.old b.now count listed }
    ensures { Released s t.old b.now count listed t.new result }
{
    let mut from = 2;
    let mut left = count;
    let mut at = 1;
    let mut more = listed;
    let mut run = 2;
    let mut to = 2;
    let mut kept = 0;
    while 0 < left {
        // Here and not before the loop: the invariant speaks of the measures.
        let z = 7 + s.f;
        let v = version_at(t, from);
        if list_behind(v, b, at, more) {
            at += 5;
            more -= 1;
        } else if list_names(v, b, at, more) {
            lower(t, run, to, from - run);
            to += from - run;
            from += z;
            run = from;
            left -= 1;
        } else {
            kept += 1;
            from += z;
            left -= 1;
        }
    }
    lower(t, run, to, from - run);
    kept
}

// The listed versions that are held are dropped.
fn free(s: Measures, t: &mut [u8], b: &[u8], room: &mut [u8]) -> Result<usize, Refusal>
    requires { NodeReady s t.old room.old × (1 ≤ length b.now) × (get_or b.now 0 0 ≡ free_tag) }
    ensures { Ends (event s t.old b.now room.old) (served result) t.new room.new }
{
    if !free_sound(s, b) {
        return Err(Refusal::Form);
    }
    let z = 7 + s.f;
    let count = length_at(t, 0);
    let kept = release(s, t, b, count, (b.len() - 1) / 5);
    clear(t, 2 + kept * z, 2 + count * z);
    put_u16(t, 0, kept as u16);
    room[0] = FREED;
    Ok(1)
}

// A count and the places, each of a version, a length and a piece.
pub(crate) fn table_size(s: Passed) -> usize
    ensures { result ≡ table_size s.measures }
{
    2 + 2 * (s.measures.m * s.measures.m) * (7 + s.measures.f)
}

// A message, once measures, slices and node number are sound.
fn receive(s: Passed, t: &mut [u8], b: &[u8], room: &mut [u8]) -> Result<usize, Refusal>
    requires { (2 + places s.measures * place_size s.measures ≤ length t.old) × (7 + s.measures.f ≤ length room.old) }
    ensures { Ends (event s.measures t.old b.now room.old) (served result) t.new room.new }
{
    if !table_sound(s, t) {
        return Err(Refusal::Form);
    }
    if b.len() < 1 {
        return Err(Refusal::Form);
    }
    match b[0] {
        STORE => store(s.measures, t, b, room),
        REQUEST => request(s.measures, t, b, room),
        FREE => free(s.measures, t, b, room),
        _ => Err(Refusal::Form),
    }
}

// A message handed to node i.
pub fn message(
    s: Measures,
    i: usize,
    table: &mut [u8],
    message: &[u8],
    room: &mut [u8],
) -> Result<usize, Refusal>
    ensures { (served result ≡ (node_message s i table.old message.now room.old).answer)
        × (table.new ≡ (node_message s i table.old message.now room.old).table)
        × (room.new ≡ (node_message s i table.old message.now room.old).room) }
{
    if !s.pass() {
        return Err(Refusal::Measures);
    }
    let s = Passed { measures: s };
    let size = table_size(s);
    if table.len() < size {
        return Err(Refusal::Short);
    }
    if room.len() < 7 + s.measures.f {
        return Err(Refusal::Short);
    }
    if i < 1 {
        return Err(Refusal::Number);
    }
    if s.measures.n < i {
        return Err(Refusal::Number);
    }
    receive(s, table, message, room)
}

// A table that holds no piece.
pub fn fresh_table(s: Measures, table: &mut [u8]) -> Result<usize, Refusal>
    ensures { (served result ≡ (node_fresh s table.old).answer) × (table.new ≡ (node_fresh s table.old).table) }
{
    if !s.pass() {
        return Err(Refusal::Measures);
    }
    let s = Passed { measures: s };
    let size = table_size(s);
    if table.len() < size {
        return Err(Refusal::Short);
    }
    clear(table, 0, size);
    Ok(0)
}
