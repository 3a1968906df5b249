// The events of a run, each on one page's memory and the parcels under way.
ghost use Rattle.std.specs.Prelude.{◌≡◌, Bool, true, false, ◌&&◌, [], ℕ, ◌+◌, ◌-◌, ◌*◌, ◌≤◌, min, leb, length, take};
ghost use Rattle.parties.specs.protocol.Measures.{passes};
ghost use Rattle.parties.specs.Sizes.{sized, Sized};
ghost use Rattle.parties.specs.protocol.ClientEvents.{room_size};
ghost use Rattle.parties.specs.protocol.Run.{length_of};
ghost use Rattle.parties.specs.records.Answer.{number};
ghost use Rattle.parties.specs.Answer.{served};
ghost use Rattle.parties.specs.protocol.Run.{deposit as depositEvent, reading as readingEvent, carry as carryEvent, hand as handEvent, bring as bringEvent, deliver as deliverEvent, lie as lieEvent};
ghost use Rattle.parties.specs.client.Answer.{answered};
ghost use Rattle.runs.specs.Parcels.{kind_of, call_kind, return_kind, to_node_kind, to_client_kind, no_node, Stands};
ghost use Rattle.runs.specs.Sent.{needed as neededFor};
ghost use Rattle.runs.specs.Acts.{body, tagged as taggedWith, Sends, Takes, Serves};
ghost use Rattle.runs.specs.Event.{Readies, Waits, Aheads, Clears, lowest_of, Carried};
ghost use Rattle.runs.specs.Happens.{PostRoomy, Happens, honest_in};

use crate::answer::{EventEnd, Happened};
use crate::parcels::{FILLED, HEADING, Key, Kind, NO_NODE, PLAIN, append, find, remove, sound};
use crate::send::send;
use parties::protocol::measures::Passed;
use parties::records::nodes::has_node;
use parties::{ClientAnswer, Measures, Refusal, sizes};
use std::cmp::min;
use std::ops::Range;
use title::table_part;
use title::title::{
    deposit as start_deposit, read as start_reading, scan, scanned, to_client, to_node, update,
    updated,
};

// Bytes that the parcels of one event take at most; 0 where the measures do not pass.
pub fn needed(s: Measures) -> usize
    ensures { result ≡ sized s (neededFor s) }
{
    if !s.pass() {
        return 0;
    }
    let rows = sizes::directory(s);
    let room = sizes::room(s);
    8 + rows + s.n * (7 + room)
}

// Measures, then the slice of parcels.
pub(crate) fn ready(s: Measures, post: usize, used: usize) -> Result<(), Refusal>
    ensures { Readies s post used result }
{
    if !s.pass() {
        return Err(Refusal::Measures);
    }
    if post < used {
        return Err(Refusal::Short);
    }
    if post - used < needed(s) {
        return Err(Refusal::Short);
    }
    Ok(())
}

// Then numbers, the list, and the parcel that is under way, if one is.
fn waiting(s: Measures, key: Key, post: &[u8], used: usize) -> Result<Option<Range<usize>>, Refusal>
    ensures { Waits s (kind_of key.kind) key.client key.node post.now used result }
{
    ready(s, post.len(), used)?;
    if !key.proper(s) {
        return Err(Refusal::Number);
    }
    let s = Passed { measures: s };
    find(s, post, used, key)
}

// Where the parcel stands that an event hands over; an `Err` where it ends here, refused or with nothing under way.
fn look_ahead(s: Measures, key: Key, post: &[u8], used: usize) -> Result<Range<usize>, EventEnd>
    ensures { Aheads s (kind_of key.kind) key.client key.node post.now used result }
{
    let what = match waiting(s, key, post, used) {
        Ok(Some(place)) => return Ok(place),
        Ok(None) => Happened::Nothing,
        Err(x) => Happened::Refused(x),
    };
    Err(EventEnd { used, what })
}

// The lowest that applies: a client's 2, its 3, or the list's 4.
fn lowest(s: Passed, c: usize, i: usize, memory: usize, enough: bool) -> Refusal
    ensures { number result ≡ lowest_of s.measures c i memory enough }
{
    if let Err(x) = table_part(s.measures, 1, memory) {
        return x;
    }
    if !enough {
        return Refusal::Short;
    }
    let key = Key {
        kind: Kind::ToClient,
        client: c,
        node: i,
    };
    if !key.proper(s.measures) {
        return Refusal::Number;
    }
    Refusal::Form
}

// Where a client is asked at once, its own 2 comes before its number and the list; enough says whether its slices beside memory suffice.
fn clearance(
    s: Measures,
    c: usize,
    i: usize,
    memory: usize,
    enough: bool,
    post: &[u8],
    used: usize,
) -> Result<(), Refusal>
    ensures { Clears s c i memory enough post.now used result }
{
    ready(s, post.len(), used)?;
    let key = Key {
        kind: Kind::ToClient,
        client: c,
        node: i,
    };
    if key.proper(s) && sound(Passed { measures: s }, post, used, 0).is_ok() {
        return Ok(());
    }
    Err(lowest(Passed { measures: s }, c, i, memory, enough))
}

// The room and the output that a message to a client wants; false where the measures do not pass.
fn message_slices(s: Measures, room: usize, out: usize) -> bool
    ensures { passes s ≡ true → result ≡ (leb (room_size s) room && leb (s.k * s.f - 4) out) }
{
    if !s.pass() {
        return false;
    }
    if room < sizes::room(s) {
        return false;
    }
    s.k * s.f - 4 <= out
}

// A client's answer to a start or to dishonest bytes.
fn starts(
    s: Measures,
    c: usize,
    a: Result<ClientAnswer, Refusal>,
    room: &[u8],
    post: &mut [u8],
    used: usize,
) -> EventEnd
    requires { PostRoomy s (length post.old) used × Sized s (answered a) }
    ensures { (length post.new ≡ length post.old) × Sends s c a room.now post.old used post.new result }
{
    let what = Happened::ByClient(a);
    let Ok(answer) = a else {
        return EventEnd { used, what };
    };
    let s = Passed { measures: s };
    let to = send(s, c, answer, room, post, used);
    EventEnd { used: to, what }
}

// A client's answer to the parcel at a place.
fn takes(
    s: Measures,
    c: usize,
    a: Result<ClientAnswer, Refusal>,
    room: &[u8],
    post: &mut [u8],
    used: usize,
    place: Range<usize>,
) -> EventEnd
    requires { PostRoomy s (length post.old) used × Sized s (answered a) × (place.start + 7 ≤ place.end) × (place.end ≤ used) }
    ensures { (length post.new ≡ length post.old) × Takes s c a room.now post.old used place.start place.end post.new result }
{
    let what = Happened::ByClient(a);
    let Ok(answer) = a else {
        return EventEnd { used, what };
    };
    let left = remove(post, used, place);
    let s = Passed { measures: s };
    let to = send(s, c, answer, room, post, left);
    EventEnd { used: to, what }
}

// The directory's or a node's answer to it: the front, then so many bytes of the room. The measures are for the contract alone.
fn serves(
    s: Measures,
    key: Key,
    a: Result<usize, Refusal>,
    front: &[u8],
    room: &[u8],
    post: &mut [u8],
    used: usize,
    place: Range<usize>,
) -> EventEnd
    requires { PostRoomy s (length post.old) used × (8 + min (length_of (served a)) (length room.now) ≤ neededFor s) × (length front.now ≤ 1) × (place.start + 7 ≤ place.end) × (place.end ≤ used) }
    ensures { (length post.new ≡ length post.old) × Serves (kind_of key.kind) key.client key.node front.now room.now post.old used place.start place.end post.new a result }
{
    let what = Happened::ByServer(a);
    let Ok(len) = a else {
        return EventEnd { used, what };
    };
    let left = remove(post, used, place);
    let part = min(len, room.len());
    let to = append(post, left, key, front, &room[..part]);
    EventEnd { used: to, what }
}

// Whether a call has fields, or an answer rows.
fn tagged(post: &[u8], place: &Range<usize>) -> bool
    requires { (place.now.start + 7 ≤ place.now.end) × (place.now.end ≤ length post.now) }
    ensures { result ≡ taggedWith (body post.now place.now.start place.now.end) }
{
    let first = place.start + HEADING;
    if place.end <= first {
        return false;
    }
    post[first] != PLAIN
}

// An update's call.
fn carry_update(
    s: Measures,
    c: usize,
    memory: &mut [u8],
    room: &mut [u8],
    post: &mut [u8],
    used: usize,
    place: Range<usize>,
) -> EventEnd
    requires { PostRoomy s (length post.old) used × Stands s call_kind c no_node used post.old place.start place.end × (taggedWith (body post.old place.start place.end) ≡ true) }
    ensures { (length post.new ≡ length post.old)
        × ((honest : ℕ → Bool) → Carried s honest (carryEvent c room.old) used
        (record { memory = memory.old; post = post.old; room = room.old; out = [] })
        (record { memory = memory.new; post = post.new; room = room.new; out = [] }) result) }
{
    let from = place.start + (HEADING + 1);
    let a = update(s, c, memory, &post[from..place.end]);
    let key = Key {
        kind: Kind::Return,
        client: c,
        node: NO_NODE,
    };
    serves(s, key, a, &[PLAIN], &[], post, used, place)
}

// A scan's call.
fn carry_scan(
    s: Measures,
    c: usize,
    memory: &mut [u8],
    room: &mut [u8],
    post: &mut [u8],
    used: usize,
    place: Range<usize>,
) -> EventEnd
    requires { PostRoomy s (length post.old) used × Stands s call_kind c no_node used post.old place.start place.end × (taggedWith (body post.old place.start place.end) ≡ false) }
    ensures { (length post.new ≡ length post.old)
        × ((honest : ℕ → Bool) → Carried s honest (carryEvent c room.old) used
        (record { memory = memory.old; post = post.old; room = room.old; out = [] })
        (record { memory = memory.new; post = post.new; room = room.new; out = [] }) result) }
{
    let a = scan(s, memory, room);
    let key = Key {
        kind: Kind::Return,
        client: c,
        node: NO_NODE,
    };
    serves(s, key, a, &[FILLED], room, post, used, place)
}

// An update's answer.
fn hand_updated(
    s: Measures,
    c: usize,
    memory: &mut [u8],
    room: &mut [u8],
    post: &mut [u8],
    used: usize,
    place: Range<usize>,
) -> EventEnd
    requires { PostRoomy s (length post.old) used × Stands s return_kind c no_node used post.old place.start place.end × (taggedWith (body post.old place.start place.end) ≡ false) }
    ensures { (length post.new ≡ length post.old)
        × ((honest : ℕ → Bool) → Carried s honest (handEvent c room.old) used
        (record { memory = memory.old; post = post.old; room = room.old; out = [] })
        (record { memory = memory.new; post = post.new; room = room.new; out = [] }) result) }
{
    let a = updated(s, c, memory, room);
    takes(s, c, a, room, post, used, place)
}

// A scan's answer.
fn hand_rows(
    s: Measures,
    c: usize,
    memory: &mut [u8],
    room: &mut [u8],
    post: &mut [u8],
    used: usize,
    place: Range<usize>,
) -> EventEnd
    requires { PostRoomy s (length post.old) used × Stands s return_kind c no_node used post.old place.start place.end × (taggedWith (body post.old place.start place.end) ≡ true) }
    ensures { (length post.new ≡ length post.old)
        × ((honest : ℕ → Bool) → Carried s honest (handEvent c room.old) used
        (record { memory = memory.old; post = post.old; room = room.old; out = [] })
        (record { memory = memory.new; post = post.new; room = room.new; out = [] }) result) }
{
    let from = place.start + (HEADING + 1);
    let a = scanned(s, c, memory, &post[from..place.end], room);
    takes(s, c, a, room, post, used, place)
}

// A message to an honest node.
fn bring_honest(
    s: Measures,
    c: usize,
    i: usize,
    memory: &mut [u8],
    room: &mut [u8],
    post: &mut [u8],
    used: usize,
    place: Range<usize>,
) -> EventEnd
    requires { PostRoomy s (length post.old) used × Stands s to_node_kind c i used post.old place.start place.end }
    ensures { (length post.new ≡ length post.old)
        × ((honest : ℕ → Bool) → honest i ≡ true → Carried s honest (bringEvent c i room.old) used
        (record { memory = memory.old; post = post.old; room = room.old; out = [] })
        (record { memory = memory.new; post = post.new; room = room.new; out = [] }) result) }
{
    let from = place.start + HEADING;
    let a = to_node(s, i, memory, &post[from..place.end], room);
    let key = Key {
        kind: Kind::ToClient,
        client: c,
        node: i,
    };
    serves(s, key, a, &[], room, post, used, place)
}

// A message to a client.
fn deliver_message(
    s: Measures,
    c: usize,
    i: usize,
    memory: &mut [u8],
    room: &mut [u8],
    out: &mut [u8],
    post: &mut [u8],
    used: usize,
    place: Range<usize>,
) -> EventEnd
    requires { PostRoomy s (length post.old) used × Stands s to_client_kind c i used post.old place.start place.end }
    ensures { (length post.new ≡ length post.old)
        × ((honest : ℕ → Bool) → Carried s honest (deliverEvent i c room.old out.old) used
        (record { memory = memory.old; post = post.old; room = room.old; out = out.old })
        (record { memory = memory.new; post = post.new; room = room.new; out = out.new }) result) }
{
    let from = place.start + HEADING;
    let a = to_client(s, c, i, memory, &post[from..place.end], room, out);
    takes(s, c, a, room, post, used, place)
}

// A deposit starts at client c.
pub fn deposit(
    s: Measures,
    c: usize,
    memory: &mut [u8],
    page: &[u8],
    post: &mut [u8],
    used: usize,
) -> EventEnd
    ensures { (honest : ℕ → Bool) → Happens s honest (depositEvent c page.now) used
        (record { memory = memory.old; post = post.old; room = []; out = [] })
        (record { memory = memory.new; post = post.new; room = []; out = [] }) result }
{
    match clearance(s, c, 1, memory.len(), true, post, used) {
        Err(x) => EventEnd {
            used,
            what: Happened::Refused(x),
        },
        Ok(()) => {
            let a = start_deposit(s, c, memory, page);
            starts(s, c, a, &[], post, used)
        }
    }
}

// A reading starts at client c.
pub fn reading(
    s: Measures,
    c: usize,
    memory: &mut [u8],
    room: &mut [u8],
    post: &mut [u8],
    used: usize,
) -> EventEnd
    ensures { (honest : ℕ → Bool) → Happens s honest (readingEvent c room.old) used
        (record { memory = memory.old; post = post.old; room = room.old; out = [] })
        (record { memory = memory.new; post = post.new; room = room.new; out = [] }) result }
{
    let enough = sizes::room(s) <= room.len();
    match clearance(s, c, 1, memory.len(), enough, post, used) {
        Err(x) => EventEnd {
            used,
            what: Happened::Refused(x),
        },
        Ok(()) => {
            let a = start_reading(s, c, memory, room);
            starts(s, c, a, room, post, used)
        }
    }
}

// Client c's oldest directory call is carried out.
pub fn carry(
    s: Measures,
    c: usize,
    memory: &mut [u8],
    room: &mut [u8],
    post: &mut [u8],
    used: usize,
) -> EventEnd
    ensures { (honest : ℕ → Bool) → Happens s honest (carryEvent c room.old) used
        (record { memory = memory.old; post = post.old; room = room.old; out = [] })
        (record { memory = memory.new; post = post.new; room = room.new; out = [] }) result }
{
    let key = Key {
        kind: Kind::Call,
        client: c,
        node: NO_NODE,
    };
    match look_ahead(s, key, post, used) {
        Err(e) => e,
        Ok(place) => {
            if tagged(post, &place) {
                carry_update(s, c, memory, room, post, used, place)
            } else {
                carry_scan(s, c, memory, room, post, used, place)
            }
        }
    }
}

// The oldest answer of a directory call is handed to client c.
pub fn hand(
    s: Measures,
    c: usize,
    memory: &mut [u8],
    room: &mut [u8],
    post: &mut [u8],
    used: usize,
) -> EventEnd
    ensures { (honest : ℕ → Bool) → Happens s honest (handEvent c room.old) used
        (record { memory = memory.old; post = post.old; room = room.old; out = [] })
        (record { memory = memory.new; post = post.new; room = room.new; out = [] }) result }
{
    let key = Key {
        kind: Kind::Return,
        client: c,
        node: NO_NODE,
    };
    match look_ahead(s, key, post, used) {
        Err(e) => e,
        Ok(place) => {
            if tagged(post, &place) {
                hand_rows(s, c, memory, room, post, used, place)
            } else {
                hand_updated(s, c, memory, room, post, used, place)
            }
        }
    }
}

// The oldest message from client c to node i is handed over.
pub fn bring(
    s: Measures,
    liars: u16,
    c: usize,
    i: usize,
    memory: &mut [u8],
    room: &mut [u8],
    post: &mut [u8],
    used: usize,
) -> EventEnd
    ensures { Happens s (honest_in liars) (bringEvent c i room.old) used
        (record { memory = memory.old; post = post.old; room = room.old; out = [] })
        (record { memory = memory.new; post = post.new; room = room.new; out = [] }) result }
{
    let key = Key {
        kind: Kind::ToNode,
        client: c,
        node: i,
    };
    match look_ahead(s, key, post, used) {
        Err(e) => e,
        Ok(place) => {
            if !has_node(liars, i) {
                return bring_honest(s, c, i, memory, room, post, used, place);
            }
            // A message to a dishonest node is gone.
            let left = remove(post, used, place);
            EventEnd {
                used: left,
                what: Happened::Taken,
            }
        }
    }
}

// The oldest message from node i to client c is handed over.
pub fn deliver(
    s: Measures,
    c: usize,
    i: usize,
    memory: &mut [u8],
    room: &mut [u8],
    out: &mut [u8],
    post: &mut [u8],
    used: usize,
) -> EventEnd
    ensures { (honest : ℕ → Bool) → Happens s honest (deliverEvent i c room.old out.old) used
        (record { memory = memory.old; post = post.old; room = room.old; out = out.old })
        (record { memory = memory.new; post = post.new; room = room.new; out = out.new }) result }
{
    let key = Key {
        kind: Kind::ToClient,
        client: c,
        node: i,
    };
    match look_ahead(s, key, post, used) {
        Err(e) => e,
        Ok(place) => { deliver_message(s, c, i, memory, room, out, post, used, place) }
    }
}

// Bytes of a dishonest node go to the client at once.
fn lie_dishonest(
    s: Measures,
    c: usize,
    i: usize,
    bytes: &[u8],
    memory: &mut [u8],
    room: &mut [u8],
    out: &mut [u8],
    post: &mut [u8],
    used: usize,
) -> EventEnd
    ensures { (honest : ℕ → Bool) → honest i ≡ false → Happens s honest (lieEvent i c bytes.now room.old out.old) used
        (record { memory = memory.old; post = post.old; room = room.old; out = out.old })
        (record { memory = memory.new; post = post.new; room = room.new; out = out.new }) result }
{
    let enough = message_slices(s, room.len(), out.len());
    match clearance(s, c, i, memory.len(), enough, post, used) {
        Err(x) => EventEnd {
            used,
            what: Happened::Refused(x),
        },
        Ok(()) => {
            let a = to_client(s, c, i, memory, bytes, room, out);
            starts(s, c, a, room, post, used)
        }
    }
}

// A dishonest node i hands client c some bytes.
pub fn lie(
    s: Measures,
    liars: u16,
    c: usize,
    i: usize,
    bytes: &[u8],
    memory: &mut [u8],
    room: &mut [u8],
    out: &mut [u8],
    post: &mut [u8],
    used: usize,
) -> EventEnd
    ensures { Happens s (honest_in liars) (lieEvent i c bytes.now room.old out.old) used
        (record { memory = memory.old; post = post.old; room = room.old; out = out.old })
        (record { memory = memory.new; post = post.new; room = room.new; out = out.new }) result }
{
    if has_node(liars, i) {
        return lie_dishonest(s, c, i, bytes, memory, room, out, post, used);
    }
    let key = Key {
        kind: Kind::ToClient,
        client: c,
        node: i,
    };
    match look_ahead(s, key, post, used) {
        Err(e) => e,
        Ok(_) => EventEnd {
            used,
            what: Happened::Nothing,
        },
    }
}
