// The directory: a table of rows, one for each client, that is updated field by field and scanned whole.
ghost use Rattle.std.specs.Prelude.{◌≡◌, true, cond, ◌++◌, ◌+◌, ◌*◌, ◌≤◌, ◌<◌, length, take, drop, get_or, replicate};
ghost use Rattle.std.proofs.Math.Option.{some};
ghost use Rattle.parties.specs.protocol.Format.{write_many};
ghost use Rattle.parties.specs.protocol.Measures.{row_size};
ghost use Rattle.parties.specs.protocol.Directory.{fresh_row, write_row, read_row};
ghost use Rattle.parties.specs.protocol.DirectoryEvents.{directory_fresh, directory_update, directory_scan};
ghost use Rattle.parties.specs.Answer.{served};
ghost use Rattle.parties.specs.records.Form.{rest, Walked};
ghost use Rattle.parties.specs.directory.Room.{longest_row, Built, Ordered, PutAt, Renewed, renewed};

use crate::protocol::measures::Passed;
use crate::protocol::version::NO_CLIENT;
use crate::records::bytes::copy;
use crate::records::form::{
    Ends, ROW_MAP, Rule, directory, field_ends, row_size, rows, whole_record,
};
use crate::{Measures, Refusal};

// The bytes of a row of 8 clients and 16 digests a pointer.
const LONGEST_ROW: usize = 4708;

// A fresh row: the map of all fields, and pointers that are none; the rest is zero.
fn fresh_row(s: Passed, room: &mut [u8])
    requires { room.old ≡ replicate longest_row 0 }
    ensures { Built (write_row (fresh_row s.measures)) room.new }
{
    room[0] = ROW_MAP;
    let pointers = s.measures.m + 1;
    for i in 0..pointers {
        room[7 * i + 5] = NO_CLIENT;
    }
}

// The first bytes of a room, so many times one after the other.
fn repeat(rows: usize, size: usize, row: &[u8], table: &mut [u8])
    requires { (size ≤ length row.now) × (rows * size ≤ length table.old) }
    ensures { table.new ≡ write_many (λ d. d) (replicate rows (take size row.now)) ++ drop (rows * size) table.old }
{
    for i in 0..rows {
        copy(table, i * size, row, 0, size);
    }
}

// All pointers are none and all indices 0.
pub fn fresh_directory(s: Measures, table: &mut [u8]) -> Result<usize, Refusal>
    ensures { (served result ≡ (directory_fresh s table.old).answer)
        × (table.new ≡ (directory_fresh s table.old).table) }
{
    if !s.pass() {
        return Err(Refusal::Measures);
    }
    let s = Passed { measures: s };
    let size = row_size(s);
    if table.len() < s.measures.m * size {
        return Err(Refusal::Short);
    }
    let mut room = [0u8; LONGEST_ROW];
    fresh_row(s, &mut room);
    repeat(s.measures.m, size, &room, table);
    Ok(0)
}

// A field's bytes after those that stand: from the record, if its bit stands, otherwise from the old row.
fn put(room: &mut [u8], at: usize, stands: bool, field: &[u8], old: &[u8]) -> usize
    requires { at + length (cond stands field.now old.now) ≤ length room.old }
    ensures { PutAt room.old at (cond stands field.now old.now) result room.new }
{
    if stands {
        copy(room, at, field, 0, field.len());
        return at + field.len();
    }
    copy(room, at, old, 0, old.len());
    at + old.len()
}

// The row at a place of the table, put together anew.
fn rebuild(fields: &[u8], e: Ends, table: &[u8], at: usize, f: Ends, room: &mut [u8])
    requires { (0 < length fields.now) × (room.old ≡ replicate longest_row 0) × Ordered 1 e (length fields.now) × Ordered (at + 1) f (length table.now)
        × (length (renewed (get_or fields.now 0 0) fields.now e table.now at f) ≤ longest_row) }
    ensures { Built (renewed (get_or fields.now 0 0) fields.now e table.now at f) room.new }
{
    let map = fields[0];
    room[0] = ROW_MAP;
    let p = put(
        room,
        1,
        map % 2 == 1,
        &fields[1..e.written],
        &table[at + 1..f.written],
    );
    let q = put(
        room,
        p,
        map / 2 % 2 == 1,
        &fields[e.written..e.frozen],
        &table[f.written..f.frozen],
    );
    let r = put(
        room,
        q,
        map / 2 / 2 % 2 == 1,
        &fields[e.frozen..e.indices],
        &table[f.frozen..f.indices],
    );
    put(
        room,
        r,
        map / 2 / 2 / 2 % 2 == 1,
        &fields[e.indices..e.index],
        &table[f.indices..f.index],
    );
}

// The fields of a sound record over those of a sound row. Pointers may grow or shrink, so the row is put together beside the table.
fn renew(s: Passed, size: usize, at: usize, e: Ends, fields: &[u8], table: &mut [u8])
    requires { (size ≡ row_size s.measures) × (at + row_size s.measures ≤ length table.old) × Walked s.measures fields.now e
        × (rest (read_row s.measures (drop at table.old)) ≡ some (drop (at + row_size s.measures) table.old)) }
    ensures { Renewed s.measures at fields.now table.old table.new }
{
    let Some(f) = field_ends(s, Rule::Proper, ROW_MAP, table, at + 1) else {
        // Not reached: the row is sound.
        return;
    };
    let mut room = [0u8; LONGEST_ROW];
    rebuild(fields, e, table, at, f, &mut room);
    copy(table, at, &room, 0, size);
}

// The fields whose bit stands in the record are replaced in the client's row.
pub fn update(s: Measures, own: usize, table: &mut [u8], fields: &[u8]) -> Result<usize, Refusal>
    ensures { (served result ≡ (directory_update s own table.old fields.now).answer)
        × (table.new ≡ (directory_update s own table.old fields.now).table) }
{
    if !s.pass() {
        return Err(Refusal::Measures);
    }
    let s = Passed { measures: s };
    let size = row_size(s);
    if table.len() < s.measures.m * size {
        return Err(Refusal::Short);
    }
    if s.measures.m <= own {
        return Err(Refusal::Number);
    }
    let Some(all) = rows(s, size, table) else {
        return Err(Refusal::Form);
    };
    let record = whole_record(s, own, fields)?;
    if !all || !record.owned {
        return Err(Refusal::Owner);
    }
    renew(s, size, own * size, record.ends, fields, table);
    Ok(0)
}

// The rows, in the answer's room.
pub fn scan(s: Measures, table: &[u8], room: &mut [u8]) -> Result<usize, Refusal>
    ensures { (served result ≡ (directory_scan s table.now room.old).answer)
        × (room.new ≡ (directory_scan s table.now room.old).room) }
{
    if !s.pass() {
        return Err(Refusal::Measures);
    }
    let s = Passed { measures: s };
    let size = row_size(s);
    let all = s.measures.m * size;
    if table.len() < all {
        return Err(Refusal::Short);
    }
    if room.len() < all {
        return Err(Refusal::Short);
    }
    directory(s, size, table)?;
    copy(room, 0, table, 0, all);
    Ok(all)
}
