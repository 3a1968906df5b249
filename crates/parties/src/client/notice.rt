// A deposit's second scan: which readings it notices.
ghost use Rattle.std.specs.Prelude.{◌≡◌, true, cond, not, ◌&&◌, ◌*◌, ◌<◌, ◌≤◌, ltb, eqb, length, get_or};
ghost use Rattle.parties.specs.protocol.Measures.{row_size};
ghost use Rattle.parties.specs.protocol.Nodes.{with_node};
ghost use Rattle.parties.specs.protocol.Directory.{no_row, read_directory};
ghost use Rattle.parties.specs.protocol.Client.{Phase as Work, client_of, read_retained};
ghost use Rattle.parties.specs.protocol.Deposit.{noticed};
ghost use Rattle.parties.specs.client.Record.{work_at, is_some};
ghost use Rattle.parties.specs.client.Draw.{rows_of};
ghost use Rattle.parties.specs.client.Found.{retained_in};
ghost use Rattle.parties.specs.client.Freeze.{Notices};

use crate::ReadingIndex;
use crate::client::choose::past;
use crate::protocol::measures::Passed;
use crate::records::bytes::u32_at;
use crate::records::form::{pointer_size, row_size};
use crate::records::nodes::with_node;

// Another client's row shows a reading above the index that is kept for it.
pub fn notices(own: usize, p: usize, kept: ReadingIndex, shown: ReadingIndex) -> bool
    ensures { result ≡ (not (eqb p own) && ltb kept.0 shown.0) }
{
    if p == own {
        return false;
    }
    kept.below(shown)
}

// The reading index of row q: after its map, m + 1 pointers and m frozen indices.
pub fn shown_index(s: Passed, size: usize, rows: &[u8], q: usize) -> ReadingIndex
    requires { (size ≡ row_size s.measures) × (s.measures.m * row_size s.measures ≤ length rows.now) × (is_some (read_directory s.measures rows.now) ≡ true) × (q < s.measures.m) }
    ensures { result ≡ (get_or (rows_of (read_directory s.measures rows.now)) q no_row).reading_index }
{
    let indices = past(s, s.measures.m + 1, rows, q * size + 1);
    let i = u32_at(rows, indices + 4 * s.measures.m);
    ReadingIndex(i)
}

// The index that is kept for client q.
fn kept_index(s: Passed, area: &[u8], q: usize) -> ReadingIndex
    requires { (is_some (read_retained s.measures area.now) ≡ true) × (work_at s.measures ≤ length area.now) × (q < s.measures.m) }
    ensures { result ≡ get_or (retained_in s.measures area.now).frozen_indices q (record { 0 = 0 }) }
{
    let size = pointer_size(s);
    let i = u32_at(area, (s.measures.m + 1) * size + 5 * s.measures.m + 4 * q);
    ReadingIndex(i)
}

fn notices_client(s: Passed, own: usize, size: usize, area: &[u8], rows: &[u8], q: usize) -> bool
    requires { (is_some (read_retained s.measures area.now) ≡ true) × (work_at s.measures ≤ length area.now) × (size ≡ row_size s.measures)
        × (s.measures.m * row_size s.measures ≤ length rows.now) × (is_some (read_directory s.measures rows.now) ≡ true) × (q < s.measures.m) }
    ensures { result ≡ noticed own (client_of (record { 0 = 0 }) (retained_in s.measures area.now) Work.idle) (rows_of (read_directory s.measures rows.now)) q }
{
    let kept = kept_index(s, area, q);
    let shown = shown_index(s, size, rows, q);
    notices(own, q, kept, shown)
}

fn marked(map: u16, i: usize, here: bool) -> u16
    requires { (1 ≤ i) × (i ≤ 16) }
    ensures { result ≡ cond here (with_node map i) map }
{
    if here {
        return with_node(map, i);
    }
    map
}

// The bit map of the clients whose reading is noticed: bit q for client q.
pub fn noticed_map(s: Passed, own: usize, area: &[u8], rows: &[u8]) -> u16
    requires { (is_some (read_retained s.measures area.now) ≡ true) × (work_at s.measures ≤ length area.now)
        × (s.measures.m * row_size s.measures ≤ length rows.now) × (is_some (read_directory s.measures rows.now) ≡ true) }
    ensures { Notices s.measures own (retained_in s.measures area.now) (rows_of (read_directory s.measures rows.now)) result }
{
    let size = row_size(s);
    let mut map = 0u16;
    for q in 0..s.measures.m {
        let here = notices_client(s, own, size, area, rows, q);
        map = marked(map, q + 1, here);
    }
    map
}
