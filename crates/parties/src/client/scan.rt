// The rows of a scan, by the step that waits for them.
ghost use Rattle.std.specs.Prelude.{◌≡◌, true, [], ◌*◌, ◌<◌, ◌≤◌, length, Ok};
ghost use Rattle.parties.specs.protocol.Measures.{row_size};
ghost use Rattle.parties.specs.protocol.Directory.{read_directory};
ghost use Rattle.parties.specs.protocol.Client.{scanning_step, read_client};
ghost use Rattle.parties.specs.protocol.ClientEvents.{room_size};
ghost use Rattle.parties.specs.client.End.{step_end};
ghost use Rattle.parties.specs.client.Record.{record_of, is_some};
ghost use Rattle.parties.specs.client.Scan.{scanned_end, spent_end};

use crate::client::choose::fetch;
use crate::client::draw::{draw, highest};
use crate::client::form::{work_at, work_size};
use crate::client::freeze::freeze;
use crate::client::step::{FREEZING, PICKING, SCANNING};
use crate::protocol::measures::Passed;
use crate::records::bytes::clear;
use crate::{ClientAnswer, Phase, Refusal};

// A deposit that has no sequence ends: its page is cleared. Phase and room are for the contract alone.
fn give_up(s: Passed, p: Phase, area: &mut [u8], room: &[u8]) -> ClientAnswer
    requires { is_some (read_client s.measures (record_of p area.old)) ≡ true }
    ensures { step_end p (Ok result) area.new room.now [] ≡ spent_end s.measures (record_of p area.old) room.now }
{
    let at = work_at(s);
    let size = work_size(s);
    clear(area, at, at + size);
    ClientAnswer::Spent
}

// A deposit's first scan: it draws the sequence after the highest.
fn first_scan(
    s: Passed,
    own: usize,
    p: Phase,
    area: &mut [u8],
    rows: &[u8],
    room: &mut [u8],
) -> ClientAnswer
    requires { (own < s.measures.m) × (p.step ≡ scanning_step) × (is_some (read_client s.measures (record_of p area.old)) ≡ true)
        × (is_some (read_directory s.measures rows.now) ≡ true) × (room_size s.measures ≤ length room.old) }
    ensures { step_end p (Ok result) area.new room.new [] ≡ scanned_end s.measures own (record_of p area.old) rows.now room.old }
{
    let Some(q) = highest(s, rows).next() else {
        return give_up(s, p, area, room);
    };
    draw(s, own, p, area, room, q)
}

// A deposit draws or freezes, a reading picks.
pub fn after_scan(
    s: Passed,
    own: usize,
    p: Phase,
    area: &mut [u8],
    rows: &[u8],
    room: &mut [u8],
) -> Result<ClientAnswer, Refusal>
    requires { (own < s.measures.m) × (is_some (read_client s.measures (record_of p area.old)) ≡ true)
        × (s.measures.m * row_size s.measures ≤ length rows.now) × (is_some (read_directory s.measures rows.now) ≡ true) × (room_size s.measures ≤ length room.old) }
    ensures { step_end p result area.new room.new [] ≡ scanned_end s.measures own (record_of p area.old) rows.now room.old }
{
    match p.step {
        SCANNING => Ok(first_scan(s, own, p, area, rows, room)),
        FREEZING => Ok(freeze(s, own, p, area, rows, room)),
        PICKING => Ok(fetch(s, own, p, area, rows, room)),
        _ => Err(Refusal::OutOfTurn),
    }
}
