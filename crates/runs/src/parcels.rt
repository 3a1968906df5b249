// Parcels under way, one after the other at the front of a lent slice: calls, their answers, and messages.
ghost use Rattle.std.specs.Prelude.{◌≡◌, List, [], ◌∷◌, ◌++◌, ◌+◌, ◌-◌, ◌<◌, ◌≤◌, eqb, true, false, ◌&&◌, length, take, drop, get_or};
ghost use Rattle.std.proofs.Math.Option.{some};
ghost use Rattle.std.proofs.Math.Seq.{paste};
ghost use Rattle.parties.specs.protocol.Measures.{passes};
ghost use Rattle.parties.specs.protocol.Format.{read_number, write_number};
ghost use Rattle.runs.specs.Parcels.{Parcel, kind_of, ReadsKind, proper_key, Heads, Looks, Follows, Sounds, Appended, Removed};

use parties::protocol::measures::Passed;
use parties::{Measures, Refusal};
use std::ops::Range;

// What a parcel is, and which way it goes.
#[derive(Clone, Copy, PartialEq, Eq)]
pub enum Kind {
    // A directory call.
    Call,
    // The answer of one.
    Return,
    ToNode,
    ToClient,
}

impl From<Kind> for u8 {
    ghost from_gives = { λ kind b. b ≡ kind_of kind };

    fn from(kind: Kind) -> u8 {
        match kind {
            Kind::Call => 0,
            Kind::Return => 1,
            Kind::ToNode => 2,
            Kind::ToClient => 3,
        }
    }
}

impl TryFrom<u8> for Kind {
    type Error = Refusal;

    ghost try_from_gives = { ReadsKind };

    fn try_from(b: u8) -> Result<Kind, Refusal> {
        match b {
            0 => Ok(Kind::Call),
            1 => Ok(Kind::Return),
            2 => Ok(Kind::ToNode),
            3 => Ok(Kind::ToClient),
            _ => Err(Refusal::Form),
        }
    }
}

// The node of calls and of their answers.
pub const NO_NODE: usize = 0;

// The first byte of a call and of the answer of one: nothing follows it, or fields or rows.
pub const PLAIN: u8 = 0;

pub const FILLED: u8 = 1;

// The heading: kind, client and node in a byte each, the length in four.
pub const HEADING: usize = 7;

// A parcel's kind, its client and its node.
#[derive(Clone, Copy, PartialEq, Eq)]
pub struct Key {
    pub kind: Kind,
    pub client: usize,
    pub node: usize,
}

impl Key {
    // Whether a parcel may have it.
    pub fn proper(self, s: Measures) -> bool
        ensures { result ≡ proper_key s (kind_of self.kind) self.client self.node }
    {
        if s.m <= self.client {
            return false;
        }
        match self.kind {
            Kind::Call | Kind::Return => self.node == NO_NODE,
            Kind::ToNode | Kind::ToClient => 1 <= self.node && self.node <= s.n,
        }
    }
}

// Whether the parcel at a place has such a key.
fn keyed(post: &[u8], at: usize, key: Key) -> bool
    requires { at + 7 ≤ length post.now }
    ensures { result ≡ (eqb (get_or post.now at 0) (kind_of key.kind) && (eqb (get_or post.now (at + 1) 0) key.client && eqb (get_or post.now (at + 2) 0) key.node)) }
{
    post[at] == u8::from(key.kind)
        && usize::from(post[at + 1]) == key.client
        && usize::from(post[at + 2]) == key.node
}

// The key of the parcel at a place, if it may have it.
pub fn key_at(s: Measures, post: &[u8], at: usize) -> Result<Key, Refusal>
    requires { at + 7 ≤ length post.now }
    ensures { Heads s post.now at result }
{
    let kind = Kind::try_from(post[at])?;
    let client = usize::from(post[at + 1]);
    let node = usize::from(post[at + 2]);
    let key = Key { kind, client, node };
    if !key.proper(s) {
        return Err(Refusal::Form);
    }
    Ok(key)
}

// The length that the parcel at a place says.
fn length_at(post: &[u8], at: usize) -> usize
    requires { at + 7 ≤ length post.now }
    ensures { read_number 4 (drop (at + 3) post.now) ≡ some (record { value = result; rest = drop (at + 7) post.now }) }
{
    let p = at + 3;
    u32::from_be_bytes([post[p], post[p + 1], post[p + 2], post[p + 3]]) as usize
}

// Where the parcel at a place ends.
fn next(s: Passed, post: &[u8], used: usize, at: usize) -> Result<usize, Refusal>
    requires { (at < used) × (used ≤ length post.now) }
    ensures { Follows s.measures used post.now at result }
{
    if used - at < HEADING {
        return Err(Refusal::Form);
    }
    key_at(s.measures, post, at)?;
    let len = length_at(post, at);
    if used - at - HEADING < len {
        return Err(Refusal::Form);
    }
    Ok(at + HEADING + len)
}

// Whether the used part is a list of parcels from a place on. The bytes themselves say how far each step goes, so that no `for` fits.
pub fn sound(s: Passed, post: &[u8], used: usize, from: usize) -> Result<(), Refusal>
    requires { (from ≤ used) × (used ≤ length post.now) }
    ensures { Sounds s.measures used post.now from result }
{
    let mut at = from;
    while at < used {
        at = next(s, post, used, at)?;
    }
    Ok(())
}

// The oldest parcel of a key; each parcel is looked at once, as above.
pub fn find(s: Passed, post: &[u8], used: usize, key: Key) -> Result<Option<Range<usize>>, Refusal>
    requires { used ≤ length post.now }
    ensures { Looks s.measures (kind_of key.kind) key.client key.node used post.now result }
{
    let mut at = 0;
    while at < used {
        let end = next(s, post, used, at)?;
        if keyed(post, at, key) {
            sound(s, post, used, end)?;
            return Ok(Some(at..end));
        }
        at = end;
    }
    Ok(None)
}

// A parcel is no longer under way.
pub fn remove(post: &mut [u8], used: usize, place: Range<usize>) -> usize
    requires { (place.start ≤ place.end) × (place.end ≤ used) × (used ≤ length post.old) }
    ensures { Removed place.start place.end post.old used post.new result }
{
    post.copy_within(place.end..used, place.start);
    used - (place.end - place.start)
}

// Bytes over those at a place.
fn put(post: &mut [u8], at: usize, bytes: &[u8])
    requires { at + length bytes.now ≤ length post.old }
    ensures { post.new ≡ paste post.old at bytes.now (length bytes.now) }
{
    post[at..at + bytes.len()].copy_from_slice(bytes);
}

// A parcel's first seven bytes.
fn put_heading(post: &mut [u8], used: usize, key: Key, len: u32)
    requires { used + 7 ≤ length post.old }
    ensures { (length post.new ≡ length post.old) × (take (used + 7) post.new ≡ take used post.old ++ (kind_of key.kind ∷ (write_number 1 key.client ++ (write_number 1 key.node ++ write_number 4 len)))) }
{
    post[used] = u8::from(key.kind);
    post[used + 1] = (key.client % 256) as u8;
    post[used + 2] = (key.node % 256) as u8;
    put(post, used + 3, &len.to_be_bytes());
}

// A parcel more, its bytes in two parts.
pub fn append(post: &mut [u8], used: usize, key: Key, front: &[u8], rest: &[u8]) -> usize
    requires { (used + (7 + (length front.now + length rest.now)) ≤ length post.old) × (length front.now + length rest.now ≤ 4294967295) }
    ensures { Appended (record { kind = kind_of key.kind; client = key.client; node = key.node; bytes = front.now ++ rest.now } ∷ []) post.old used post.new result }
{
    let first = front.len();
    let len = first + rest.len();
    put_heading(post, used, key, len as u32);
    let at = used + HEADING;
    put(post, at, front);
    put(post, at + first, rest);
    at + len
}
