// What a client's answer sends is put under way.
ghost use Rattle.std.specs.Prelude.{◌≡◌, true, Ok, ◌+◌, ◌*◌, ◌≤◌, length};
ghost use Rattle.parties.specs.Sizes.{Sized};
ghost use Rattle.parties.specs.protocol.Measures.{passes};
ghost use Rattle.parties.specs.protocol.ClientEvents.{message_to};
ghost use Rattle.parties.specs.client.Answer.{answered};
ghost use Rattle.runs.specs.Parcels.{Appended};
ghost use Rattle.runs.specs.Sent.{call_by, message_in, messages_by, sent, longest_call, longest_message, needed};

use crate::parcels::{FILLED, Key, Kind, NO_NODE, PLAIN, append};
use parties::ClientAnswer;
use parties::protocol::measures::Passed;
use parties::records::nodes::has_node;
use std::cmp::min;

// A directory call, if the answer is one; the measures are for the contract alone.
fn send_call(
    s: Passed,
    c: usize,
    a: ClientAnswer,
    room: &[u8],
    post: &mut [u8],
    used: usize,
) -> usize
    requires { Sized s.measures (answered (Ok a)) × (used + longest_call s.measures ≤ length post.old) }
    ensures { Appended (call_by c (answered (Ok a)) room.now) post.old used post.new result }
{
    let key = Key {
        kind: Kind::Call,
        client: c,
        node: NO_NODE,
    };
    match a {
        ClientAnswer::Scan => append(post, used, key, &[PLAIN], &[]),
        ClientAnswer::Update(len) => {
            let to = min(len, room.len());
            append(post, used, key, &[FILLED], &room[..to])
        }
        _ => used,
    }
}

// The message to node i, if there is one: parts of a room that is too short are as long as it is.
fn send_message(
    s: Passed,
    c: usize,
    i: usize,
    a: ClientAnswer,
    room: &[u8],
    post: &mut [u8],
    used: usize,
) -> usize
    requires { (1 ≤ i) × (i ≤ s.measures.n) × Sized s.measures (answered (Ok a)) × (used + longest_message s.measures ≤ length post.old) }
    ensures { Appended (message_in c i (message_to s.measures (answered (Ok a)) room.now i)) post.old used post.new result }
{
    let key = Key {
        kind: Kind::ToNode,
        client: c,
        node: i,
    };
    let front = min(6, room.len());
    match a {
        ClientAnswer::Stores(_, len) => {
            let from = min(6 + (i - 1) * s.measures.f, room.len());
            let to = from + min(len, room.len() - from);
            append(post, used, key, &room[..front], &room[from..to])
        }
        ClientAnswer::Requests(_, nodes) => {
            if has_node(nodes, i) {
                append(post, used, key, &room[..front], &[])
            } else {
                used
            }
        }
        ClientAnswer::Deposited(_, len) => {
            let to = min(len, room.len());
            append(post, used, key, &room[..to], &[])
        }
        _ => used,
    }
}

// The messages to all nodes.
fn send_messages(
    s: Passed,
    c: usize,
    a: ClientAnswer,
    room: &[u8],
    post: &mut [u8],
    used: usize,
) -> usize
    requires { Sized s.measures (answered (Ok a)) × (used + s.measures.n * longest_message s.measures ≤ length post.old) }
    ensures { Appended (messages_by s.measures c (answered (Ok a)) room.now s.measures.n) post.old used post.new result }
{
    let mut at = used;
    for i in 0..s.measures.n {
        at = send_message(s, c, i + 1, a, room, post, at);
    }
    at
}

// All that an answer sends.
pub fn send(
    s: Passed,
    c: usize,
    a: ClientAnswer,
    room: &[u8],
    post: &mut [u8],
    used: usize,
) -> usize
    requires { Sized s.measures (answered (Ok a)) × (used + needed s.measures ≤ length post.old) }
    ensures { Appended (sent s.measures c (answered (Ok a)) room.now) post.old used post.new result }
{
    let at = send_call(s, c, a, room, post, used);
    send_messages(s, c, a, room, post, at)
}
