// Replies to a reading: the first reply of each named node is counted, and k matching pieces end the reading.
ghost use Rattle.std.specs.Prelude.{◌≡◌, true, not, cond, ◌&&◌, List, ℕ, ◌+◌, ◌-◌, ◌*◌, ◌<◌, ◌≤◌, length, take, drop, Ok};
ghost use Rattle.std.proofs.Math.Option.{some, none};
ghost use Rattle.std.proofs.Math.Seq.{paste};
ghost use Rattle.coding.specs.Answer.{outcome};
ghost use Rattle.coding.specs.Join.{join as joinEnd};
ghost use Rattle.coding.specs.Nodes.{all};
ghost use Rattle.parties.specs.protocol.Format.{write_area};
ghost use Rattle.parties.specs.protocol.Measures.{passes};
ghost use Rattle.parties.specs.protocol.Nodes.{nodes_in, count as counting, stands as standing, with_node};
ghost use Rattle.parties.specs.protocol.Reading.{same_bytes};
ghost use Rattle.parties.specs.protocol.Client.{fetching_step, work_size, read_client};
ghost use Rattle.parties.specs.client.End.{step_end};
ghost use Rattle.parties.specs.client.Record.{record_of, work_at, is_some};
ghost use Rattle.parties.specs.client.Reply.{replied_end, maps_at, standing_at, counts_at, Awaits, digest_place, matches_at, went_on, cleared, mapped, area_put, piece_put, lengths_with};

use crate::client::draw::digest_piece;
use crate::client::form::{work_at, work_size};
use crate::client::step::FETCHING;
use crate::protocol::measures::Passed;
use crate::records::bytes::{clear, copy, put_u16, u16_at};
use crate::records::form::pointer_size;
use crate::records::nodes::{count, rank, stands, with_node};
use crate::records::version::{same_version, version_at};
use crate::{ClientAnswer, Phase, Refusal, Version};
use coding::answer::Refusal as Unjoined;
use coding::join::join;

// What a reading keeps beside its pieces: the picked version, the nodes named, those counted, those that match.
#[derive(Clone, Copy)]
pub struct Standing {
    pub version: Version,
    pub named: u16,
    pub counted: u16,
    pub matching: u16,
}

fn standing_at(area: &[u8], at: usize, maps: usize) -> Standing
    requires { (at + 7 ≤ length area.now) × (maps + 4 ≤ length area.now) }
    ensures { result ≡ standing_at area.now at maps }
{
    let version = version_at(area, at);
    let named = u16_at(area, at + 5);
    let counted = u16_at(area, maps);
    let matching = u16_at(area, maps + 2);
    Standing {
        version,
        named,
        counted,
        matching,
    }
}

// A named node whose reply is not counted yet.
fn awaited(named: u16, counted: u16, i: usize) -> bool
    requires { (1 ≤ i) × (i ≤ 16) }
    ensures { result ≡ (standing named i && not (standing counted i)) }
{
    if !stands(named, i) {
        return false;
    }
    !stands(counted, i)
}

// The first reply of a named node with the picked version.
fn counts(x: Standing, i: usize, v: Version) -> bool
    requires { (1 ≤ i) × (i ≤ 16) }
    ensures { result ≡ counts_at x i v }
{
    if !same_version(v, x.version) {
        return false;
    }
    awaited(x.named, x.counted, i)
}

// What a reading keeps that waits for this reply: with its version, and the first of a named node.
fn awaited_reply(s: Passed, i: usize, v: Version, p: Phase, area: &[u8]) -> Option<Standing>
    requires { (1 ≤ i) × (i ≤ s.measures.n) × (is_some (read_client s.measures (record_of p area.now)) ≡ true) }
    ensures { Awaits s.measures i v p area.now result }
{
    if p.step != FETCHING {
        return None;
    }
    let at = work_at(s);
    let x = standing_at(area, at, at + pointer_size(s));
    if !counts(x, i, v) {
        return None;
    }
    Some(x)
}

// Every named node's reply is counted.
fn all_counted(named: u16, counted: u16) -> bool
    ensures { result ≡ all (standing counted) (nodes_in named) }
{
    for i in 0..16 {
        if awaited(named, counted, i + 1) {
            return false;
        }
    }
    true
}

fn same_bytes(d: [u8; 32], t: &[u8], at: usize) -> bool
    requires { at + 32 ≤ length t.now }
    ensures { result ≡ same_bytes d (take 32 (drop at t.now)) }
{
    d[..] == t[at..at + 32]
}

// A piece of 1 to f bytes whose digest, as node i's of version v, stands at a place.
fn matches(f: usize, v: Version, i: usize, piece: &[u8], area: &[u8], at: usize) -> bool
    requires { (i ≤ 16) × (at + 32 ≤ length area.now) }
    ensures { result ≡ matches_at f v i piece.now area.now at }
{
    if piece.len() < 1 {
        return false;
    }
    if f < piece.len() {
        return false;
    }
    let d = digest_piece(v, i, piece);
    same_bytes(d, area, at)
}

// A reading that does not end with a page: it fails if every named node is counted, else its maps are kept.
fn go_on(s: Passed, area: &mut [u8], named: u16, counted: u16, matching: u16) -> ClientAnswer
    requires { work_at s.measures + work_size s.measures ≤ length area.old }
    ensures { (result ≡ went_on (all (standing counted) (nodes_in named)))
        × (area.new ≡ cond (all (standing counted) (nodes_in named)) (cleared s.measures area.old) (mapped s.measures counted matching area.old)) }
{
    let at = work_at(s);
    if all_counted(named, counted) {
        let size = work_size(s);
        clear(area, at, at + size);
        return ClientAnswer::Failed;
    }
    let maps = at + pointer_size(s);
    put_u16(area, maps, counted);
    put_u16(area, maps + 2, matching);
    ClientAnswer::Waits
}

// A piece at the front of its area, and zeros after it.
fn put_area(area: &mut [u8], at: usize, f: usize, piece: &[u8])
    requires { (at + f ≤ length area.old) × (length piece.now ≤ f) }
    ensures { area.new ≡ paste area.old at (write_area f (λ p. p) piece.now) f }
{
    let n = piece.len();
    copy(area, at, piece, 0, n);
    clear(area, at + n, at + f);
}

// A node's piece and its length, where the lengths start.
fn put_piece(area: &mut [u8], at: usize, n: usize, f: usize, i: usize, piece: &[u8])
    requires { (n ≤ 16) × (f ≤ 4096) × (1 ≤ i) × (i ≤ n) × (at + 2 * n + n * f ≤ length area.old) × (length piece.now ≤ f) }
    ensures { area.new ≡ piece_put at n f i piece.now area.old }
{
    let len = piece.len();
    let place = at + 2 * n + (i - 1) * f;
    put_u16(area, at + 2 * (i - 1), len as u16);
    put_area(area, place, f, piece);
}

// The n lengths, of which node i's is another.
fn lengths_with(area: &[u8], at: usize, n: usize, i: usize, len: u16) -> [u16; 16]
    requires { (n ≤ 16) × (1 ≤ i) × (i ≤ n) × (at + 2 * n ≤ length area.now) }
    ensures { take n result ≡ lengths_with area.now at n i len }
{
    let mut v = [0u16; 16];
    for j in 0..n {
        v[j] = u16_at(area, at + 2 * j);
    }
    v[i - 1] = len;
    v
}

// Bytes at a place, by value.
fn save(t: &[u8], at: usize, n: usize) -> [u8; 4096]
    requires { (n ≤ 4096) × (at + n ≤ length t.now) }
    ensures { take n result ≡ take n (drop at t.now) }
{
    let mut v = [0u8; 4096];
    copy(&mut v, 0, t, at, n);
    v
}

// The matching pieces with node i's, joined. The node's area is lent to its piece, and is as before in the end.
fn join_with(
    s: Passed,
    i: usize,
    matching: u16,
    area: &mut [u8],
    at: usize,
    piece: &[u8],
    out: &mut [u8],
) -> Result<usize, Unjoined>
    requires { (1 ≤ i) × (i ≤ s.measures.n) × (at + 2 * s.measures.n + s.measures.n * s.measures.f ≤ length area.old) × (length piece.now ≤ s.measures.f) }
    ensures { (outcome result ≡ (joinEnd s.measures.n s.measures.k s.measures.f matching (take (s.measures.n * s.measures.f) (drop (at + 2 * s.measures.n) (area_put at s.measures.n s.measures.f i piece.now area.old))) (lengths_with area.old at s.measures.n i (length piece.now)) out.old).outcome)
        × (out.new ≡ (joinEnd s.measures.n s.measures.k s.measures.f matching (take (s.measures.n * s.measures.f) (drop (at + 2 * s.measures.n) (area_put at s.measures.n s.measures.f i piece.now area.old))) (lengths_with area.old at s.measures.n i (length piece.now)) out.old).out)
        × (area.new ≡ area.old) }
{
    let n = s.measures.n;
    let f = s.measures.f;
    let len = piece.len() as u16;
    let from = at + 2 * n;
    let to = from + n * f;
    let place = from + (i - 1) * f;
    let lens = lengths_with(area, at, n, i, len);
    let saved = save(area, place, f);
    put_area(area, place, f, piece);
    let a = join(
        n,
        s.measures.k,
        f,
        matching,
        &area[from..to],
        &lens[..n],
        out,
    );
    copy(area, place, &saved, 0, f);
    a
}

// The k-th matching piece: the pieces are joined, or refused. The version of the reply and the phase are for the contract alone.
fn finish(
    s: Passed,
    i: usize,
    v: Version,
    p: Phase,
    x: Standing,
    area: &mut [u8],
    piece: &[u8],
    out: &mut [u8],
) -> Result<ClientAnswer, Refusal>
    requires { (1 ≤ i) × (i ≤ s.measures.n) × (is_some (read_client s.measures (record_of p area.old)) ≡ true) × (s.measures.k * s.measures.f - 4 ≤ length out.old)
        × (p.step ≡ fetching_step) × (x ≡ standing_at area.old (work_at s.measures) (maps_at s.measures)) × (counts_at x i v ≡ true)
        × (matches_at s.measures.f x.version i piece.now area.old (digest_place (work_at s.measures) x.named i) ≡ true)
        × (s.measures.k ≤ counting (with_node x.matching i)) }
    ensures { (room : List ℕ) → step_end p result area.new room out.new ≡ replied_end s.measures i v (some piece.now) (record_of p area.old) room out.old }
{
    let at = work_at(s);
    let size = work_size(s);
    let version = x.version;
    let lens = at + pointer_size(s) + 4;
    let matching = with_node(x.matching, i);
    let Ok(len) = join_with(s, i, matching, area, lens, piece, out) else {
        return Err(Refusal::Form);
    };
    clear(area, at, at + size);
    Ok(ClientAnswer::Page(version, len))
}

// A reply that counts, with a piece.
fn reply_counted(
    s: Passed,
    i: usize,
    v: Version,
    p: Phase,
    x: Standing,
    area: &mut [u8],
    piece: &[u8],
    out: &mut [u8],
) -> Result<ClientAnswer, Refusal>
    requires { (1 ≤ i) × (i ≤ s.measures.n) × (is_some (read_client s.measures (record_of p area.old)) ≡ true) × (s.measures.k * s.measures.f - 4 ≤ length out.old)
        × (p.step ≡ fetching_step) × (x ≡ standing_at area.old (work_at s.measures) (maps_at s.measures)) × (counts_at x i v ≡ true) }
    ensures { (room : List ℕ) → step_end p result area.new room out.new ≡ replied_end s.measures i v (some piece.now) (record_of p area.old) room out.old }
{
    let at = work_at(s);
    let place = at + 7 + 32 * rank(x.named, i);
    let counted = with_node(x.counted, i);
    if !matches(s.measures.f, x.version, i, piece, area, place) {
        return Ok(go_on(s, area, x.named, counted, x.matching));
    }
    let matching = with_node(x.matching, i);
    if count(matching) < s.measures.k {
        let lens = at + pointer_size(s) + 4;
        put_piece(area, lens, s.measures.n, s.measures.f, i, piece);
        return Ok(go_on(s, area, x.named, counted, matching));
    }
    finish(s, i, v, p, x, area, piece, out)
}

// A node's reply with a piece of a version.
pub fn reply(
    s: Passed,
    i: usize,
    v: Version,
    p: Phase,
    area: &mut [u8],
    piece: &[u8],
    out: &mut [u8],
) -> Result<ClientAnswer, Refusal>
    requires { (1 ≤ i) × (i ≤ s.measures.n) × (is_some (read_client s.measures (record_of p area.old)) ≡ true) × (s.measures.k * s.measures.f - 4 ≤ length out.old) }
    ensures { (room : List ℕ) → step_end p result area.new room out.new ≡ replied_end s.measures i v (some piece.now) (record_of p area.old) room out.old }
{
    let Some(x) = awaited_reply(s, i, v, p, area) else {
        return Ok(ClientAnswer::Waits);
    };
    reply_counted(s, i, v, p, x, area, piece, out)
}

// A node's reply that it holds no piece of a version.
pub fn missing(s: Passed, i: usize, v: Version, p: Phase, area: &mut [u8]) -> ClientAnswer
    requires { (1 ≤ i) × (i ≤ s.measures.n) × (is_some (read_client s.measures (record_of p area.old)) ≡ true) }
    ensures { (room out : List ℕ) → step_end p (Ok result) area.new room out ≡ replied_end s.measures i v none (record_of p area.old) room out }
{
    let Some(x) = awaited_reply(s, i, v, p, area) else {
        return ClientAnswer::Waits;
    };
    let counted = with_node(x.counted, i);
    go_on(s, area, x.named, counted, x.matching)
}
