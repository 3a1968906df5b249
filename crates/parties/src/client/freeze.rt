// A deposit's second scan: what is retained after it, and its answer.
ghost use Rattle.std.specs.Prelude.{◌≡◌, true, cond, [], ◌++◌, ◌+◌, ◌*◌, ◌<◌, ◌≤◌, length, get_or, drop, replicate, Ok};
ghost use Rattle.parties.specs.protocol.Measures.{row_size, pointer_size};
ghost use Rattle.parties.specs.protocol.Nodes.{stands as standing};
ghost use Rattle.parties.specs.protocol.Directory.{read_directory, no_row};
ghost use Rattle.parties.specs.protocol.Client.{freezing_step, work_size, read_client, read_retained, read_some, write_retained};
ghost use Rattle.parties.specs.protocol.ClientEvents.{room_size};
ghost use Rattle.parties.specs.client.End.{step_end};
ghost use Rattle.parties.specs.client.Record.{record_of, is_some, work_at, area_size};
ghost use Rattle.parties.specs.client.Draw.{rows_of};
ghost use Rattle.parties.specs.client.Found.{retained_in, pointer_in};
ghost use Rattle.parties.specs.client.Freeze.{retained_after, freeze_end};
ghost use Rattle.parties.specs.client.Retain.{notice};

use crate::client::form::{work_at, work_size};
use crate::client::free::put_free_list;
use crate::client::notice::{noticed_map, shown_index};
use crate::protocol::measures::Passed;
use crate::records::bytes::{clear, move_down, move_up, put_u32};
use crate::records::form::{pointer_size, row_size};
use crate::records::nodes::stands;
use crate::records::version::version_at;
use crate::{ClientAnswer, Phase, ReadingIndex};

// For client q the work's pointer is frozen, the written version reserved, and the index of its row kept.
fn put_noticed(s: Passed, size: usize, at: usize, q: usize, i: ReadingIndex, area: &mut [u8])
    requires { (size ≡ pointer_size s.measures) × (at ≡ work_at s.measures) × (q < s.measures.m) × (area_size s.measures ≤ length area.old) }
    ensures { area.new ≡ notice s.measures q i area.old }
{
    let frozen = (q + 1) * size;
    let pointers = (s.measures.m + 1) * size;
    let index = pointers + 5 * s.measures.m + 4 * q;
    move_down(area, at, at + size, at - frozen);
    move_up(area, 0, 5, pointers + 5 * q);
    put_u32(area, index, i.0);
}

// One client, if its reading is noticed.
fn retain_one(s: Passed, map: u16, rows: &[u8], size: usize, at: usize, q: usize, area: &mut [u8])
    requires { (size ≡ pointer_size s.measures) × (at ≡ work_at s.measures) × (q < s.measures.m) × (area_size s.measures ≤ length area.old)
        × (s.measures.m * row_size s.measures ≤ length rows.now) × (is_some (read_directory s.measures rows.now) ≡ true) }
    ensures { area.new
        ≡ cond (standing map (q + 1)) (notice s.measures q (get_or (rows_of (read_directory s.measures rows.now)) q no_row).reading_index area.old) area.old }
{
    if !stands(map, q + 1) {
        return;
    }
    let row = row_size(s);
    let i = shown_index(s, row, rows, q);
    put_noticed(s, size, at, q, i, area);
}

// What is retained after the second scan, and an idle client's work.
fn retain(s: Passed, map: u16, rows: &[u8], area: &mut [u8])
    requires { (area_size s.measures ≤ length area.old) × (is_some (read_retained s.measures area.old) ≡ true)
        × (is_some (read_some s.measures (drop (work_at s.measures) area.old)) ≡ true)
        × (s.measures.m * row_size s.measures ≤ length rows.now) × (is_some (read_directory s.measures rows.now) ≡ true) }
    ensures { area.new
        ≡ write_retained s.measures (retained_after s.measures map (retained_in s.measures area.old) (rows_of (read_directory s.measures rows.now)) (pointer_in s.measures area.old))
        ++ (replicate (work_size s.measures) 0 ++ drop (area_size s.measures) area.old) }
{
    let size = pointer_size(s);
    let at = work_at(s);
    let work = work_size(s);
    for q in 0..s.measures.m {
        retain_one(s, map, rows, size, at, q, area);
    }
    move_down(area, at, at + size, at);
    clear(area, at, at + work);
}

// The second scan's answer: readings that are noticed freeze the new pointer and reserve the previous version, and what they replace is freed.
// The phase is for the contract alone.
pub fn freeze(
    s: Passed,
    own: usize,
    p: Phase,
    area: &mut [u8],
    rows: &[u8],
    room: &mut [u8],
) -> ClientAnswer
    requires { (own < s.measures.m) × (p.step ≡ freezing_step) × (is_some (read_client s.measures (record_of p area.old)) ≡ true)
        × (s.measures.m * row_size s.measures ≤ length rows.now) × (is_some (read_directory s.measures rows.now) ≡ true) × (room_size s.measures ≤ length room.old) }
    ensures { step_end p (Ok result) area.new room.new [] ≡ freeze_end s.measures own (record_of p area.old) rows.now room.old }
{
    let map = noticed_map(s, own, area, rows);
    let at = work_at(s);
    let v = version_at(area, at);
    let len = put_free_list(s, map, v, area, room);
    retain(s, map, rows, area);
    ClientAnswer::Deposited(v, len)
}
