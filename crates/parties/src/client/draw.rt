// A deposit's first scan: the highest written sequence, and the store messages of the next version.
ghost use Rattle.std.specs.Prelude.{◌≡◌, true, cond, [], ◌++◌, ◌+◌, ◌-◌, ◌*◌, ◌<◌, ◌≤◌, ltb, length, get_or, take, drop, Ok};
ghost use Rattle.std.proofs.Math.Seq.{paste};
ghost use Rattle.coding.specs.Pieces.{columns};
ghost use Rattle.coding.specs.Placed.{piece_digest};
ghost use Rattle.parties.specs.protocol.Measures.{row_size};
ghost use Rattle.parties.specs.protocol.Pointer.{write_version};
ghost use Rattle.parties.specs.protocol.Directory.{read_directory, no_row};
ghost use Rattle.parties.specs.protocol.Message.{ToNode, write_to_node};
ghost use Rattle.parties.specs.protocol.Client.{scanning_step, work_size, read_client};
ghost use Rattle.parties.specs.protocol.ClientEvents.{room_size, stores_room};
ghost use Rattle.parties.specs.protocol.Deposit.{highest as highestOf};
ghost use Rattle.parties.specs.client.End.{step_end};
ghost use Rattle.parties.specs.client.Record.{record_of, is_some};
ghost use Rattle.parties.specs.client.Draw.{rows_of, room_digests, stores_work, draw_end};

use crate::client::form::{work_at, work_size};
use crate::protocol::measures::Passed;
use crate::protocol::tags::STORE;
use crate::records::bytes::{clear, copy, put_u16, u32_at};
use crate::records::form::row_size;
use crate::records::version::version_bytes;
use crate::{ClientAnswer, Phase, Sequence, Version};
use coding::digest_placed;
use coding::split::split;

// The written sequence of row i, which starts with its map; the measures are for the contract alone.
fn written_sequence(s: Passed, size: usize, rows: &[u8], i: usize) -> Sequence
    requires { (size ≡ row_size s.measures) × (is_some (read_directory s.measures rows.now) ≡ true) × (i < s.measures.m) }
    ensures { result ≡ (get_or (rows_of (read_directory s.measures rows.now)) i no_row).written.version.sequence }
{
    Sequence(u32_at(rows, i * size + 1))
}

// The highest written sequence of the rows, from the last row on.
pub fn highest(s: Passed, rows: &[u8]) -> Sequence
    requires { is_some (read_directory s.measures rows.now) ≡ true }
    ensures { result ≡ highestOf (rows_of (read_directory s.measures rows.now)) }
{
    let size = row_size(s);
    let mut top = Sequence(0);
    for i in (0..s.measures.m).rev() {
        let q = written_sequence(s, size, rows, i);
        top = q.max(top);
    }
    top
}

// The common front of a version's store messages: tag and version.
pub fn put_front(room: &mut [u8], v: Version)
    requires { 6 ≤ length room.old }
    ensures { room.new ≡ write_to_node (ToNode.store v []) ++ drop 6 room.old }
{
    room[0] = STORE;
    put_version(room, 1, v);
}

// The digest of a node's piece of a version.
pub fn digest_piece(v: Version, node: usize, piece: &[u8]) -> [u8; 32]
    requires { node ≤ 16 }
    ensures { result ≡ piece_digest (write_version v) node piece.now }
{
    digest_placed(version_bytes(v), node as u8, piece)
}

fn put_piece_digest(
    v: Version,
    node: usize,
    len: usize,
    room: &[u8],
    from: usize,
    area: &mut [u8],
    at: usize,
)
    requires { (node ≤ 16) × (from + len ≤ length room.now) × (at + 32 ≤ length area.old) }
    ensures { area.new ≡ paste area.old at (piece_digest (write_version v) node (take len (drop from room.now))) 32 }
{
    let to = from + len;
    let d = digest_piece(v, node, &room[from..to]);
    copy(area, at, &d, 0, 32);
}

// The digests of all n pieces, each of len bytes at the front of its area in the room.
pub fn put_digests(s: Passed, v: Version, len: usize, room: &[u8], area: &mut [u8], from: usize)
    requires { (len ≤ s.measures.f) × (6 + s.measures.n * s.measures.f ≤ length room.now) × (from + 32 * s.measures.n ≤ length area.old) }
    ensures { area.new ≡ paste area.old from (room_digests s.measures.n s.measures.f v len room.now) (32 * s.measures.n) }
{
    for i in 0..s.measures.n {
        put_piece_digest(
            v,
            i + 1,
            len,
            room,
            6 + i * s.measures.f,
            area,
            from + 32 * i,
        );
    }
}

pub fn put_version(t: &mut [u8], at: usize, v: Version)
    requires { at + 5 ≤ length t.old }
    ensures { t.new ≡ paste t.old at (write_version v) 5 }
{
    copy(t, at, &version_bytes(v), 0, 5);
}

// The work of a deposit whose pieces are sent: version, no node that acknowledged it, digests, spare bytes.
fn put_stores(s: Passed, v: Version, len: usize, room: &[u8], area: &mut [u8], at: usize)
    requires { (len ≤ s.measures.f) × (6 + s.measures.n * s.measures.f ≤ length room.now) × (at + work_size s.measures ≤ length area.old) }
    ensures { area.new ≡ paste area.old at (stores_work s.measures v (room_digests s.measures.n s.measures.f v len room.now)) (work_size s.measures) }
{
    let size = work_size(s);
    let rest = at + 7 + 32 * s.measures.n;
    put_version(area, at, v);
    put_u16(area, at + 5, 0);
    put_digests(s, v, len, room, area, at + 7);
    clear(area, rest, at + size);
}

// The pieces of a page behind their common front, and their length.
fn put_pieces(s: Passed, page: &[u8], room: &mut [u8], v: Version) -> usize
    requires { (length page.now ≤ s.measures.k * s.measures.f - 4) × (room_size s.measures ≤ length room.old) }
    ensures { (result ≡ columns s.measures.k (length page.now)) × (room.new ≡ stores_room s.measures v page.now room.old) }
{
    let front = 6;
    let len = split(
        s.measures.n,
        s.measures.k,
        s.measures.f,
        page,
        &mut room[front..],
    );
    put_front(room, v);
    // The other value is not reached: measures, room and page are sound.
    len.unwrap_or(0)
}

// The first scan's answer with the next sequence: the page in the work area is cut into the room, and the work is what is stored.
// The phase is for the contract alone.
pub fn draw(
    s: Passed,
    own: usize,
    p: Phase,
    area: &mut [u8],
    room: &mut [u8],
    q: Sequence,
) -> ClientAnswer
    requires { (own < s.measures.m) × (p.step ≡ scanning_step) × (is_some (read_client s.measures (record_of p area.old)) ≡ true)
        × (room_size s.measures ≤ length room.old) × (1 ≤ q.0) }
    ensures { step_end p (Ok result) area.new room.new [] ≡ draw_end s.measures own q (record_of p area.old) room.old }
{
    let at = work_at(s);
    let from = at + 4;
    let to = from + u32_at(area, at) as usize;
    let v = Version {
        sequence: q,
        client: own as u8,
    };
    let len = put_pieces(s, &area[from..to], room, v);
    put_stores(s, v, len, room, area, at);
    ClientAnswer::Stores(v, len)
}
