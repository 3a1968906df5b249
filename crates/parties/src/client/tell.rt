// Messages to a client: their forms.
ghost use Rattle.std.specs.Prelude.{◌≡◌, ◌≤◌, length, get_or};
ghost use Rattle.parties.specs.protocol.Message.{stored_tag, reply_tag, read_to_client};
ghost use Rattle.parties.specs.client.Tell.{told_by};

use crate::protocol::tags::{FREED, REPLY, STORED};
use crate::records::version::{proper_at, version_alone, version_at};
use crate::{Measures, Version};

#[derive(Clone, Copy)]
pub enum Told {
    // A version is stored.
    Stored(Version),
    // Listed versions are dropped.
    Freed,
    // A piece of a version, from the message's eighth byte on.
    Reply(Version),
    // A version is not held.
    Missing(Version),
}

// A version alone.
fn stored(s: Measures, b: &[u8]) -> Option<Told>
    requires { (1 ≤ length b.now) × (get_or b.now 0 0 ≡ stored_tag) }
    ensures { told_by b.now result ≡ read_to_client s b.now }
{
    if !version_alone(s, b) {
        return None;
    }
    Some(Told::Stored(version_at(b, 1)))
}

// A version, then a 1 and a piece, or a 0 alone.
fn replied(s: Measures, b: &[u8]) -> Option<Told>
    requires { (1 ≤ length b.now) × (get_or b.now 0 0 ≡ reply_tag) }
    ensures { told_by b.now result ≡ read_to_client s b.now }
{
    if b.len() < 7 {
        return None;
    }
    if !proper_at(s, b, 1) {
        return None;
    }
    let v = version_at(b, 1);
    let held = b[6];
    if held == 1 {
        return Some(Told::Reply(v));
    }
    if held != 0 {
        return None;
    }
    if b.len() != 7 {
        return None;
    }
    Some(Told::Missing(v))
}

// None of a message that breaks its form.
pub fn tell(s: Measures, b: &[u8]) -> Option<Told>
    ensures { told_by b.now result ≡ read_to_client s b.now }
{
    if b.len() < 1 {
        return None;
    }
    let tag = b[0];
    if tag == STORED {
        return stored(s, b);
    }
    if tag == REPLY {
        return replied(s, b);
    }
    if tag != FREED {
        return None;
    }
    if b.len() != 1 {
        return None;
    }
    Some(Told::Freed)
}
