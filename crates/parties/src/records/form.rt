// Form tests: whether a record at a place of some bytes keeps its form, and where it ends.
ghost use Rattle.std.specs.Prelude.{◌≡◌, true, ◌+◌, ◌*◌, ◌^◌, ◌≤◌, ltb, length, drop};
ghost use Rattle.parties.specs.protocol.Measures.{pointer_size, row_size};
ghost use Rattle.parties.specs.protocol.Nodes.{count};
ghost use Rattle.parties.specs.protocol.Format.{read_many};
ghost use Rattle.parties.specs.protocol.Directory.{Field};
ghost use Rattle.parties.specs.records.Form.{rest, Formed, pointer_by, proper_front, allowed_front, after_if, Indexed, Parted, OwnParted, Recorded, Rowed, Tabled, Judged};

use crate::protocol::measures::Passed;
use crate::records::bytes::{u16_at, zero_run};
use crate::records::nodes::count;
use crate::records::version::version_at;
use crate::{Refusal, Version};

// Four bits of a directory record's map stand for its fields: the maps are below 16, and a row's has all four.
pub(crate) const MAPS: u8 = 16;

pub(crate) const ROW_MAP: u8 = 15;

// The maps of updates: a deposit's has the written pointer, the frozen ones and their indices, a reading's its index.
pub(crate) const DEPOSIT_MAP: u8 = 7;

pub(crate) const READING_MAP: u8 = 8;

// What is asked of a pointer.
#[derive(Clone, Copy)]
pub enum Rule {
    // Its length alone.
    Length,
    // And its rule.
    Proper,
    // And that it is none or has this client.
    Owner(usize),
}

// Where each field of a directory record ends; a field whose bit does not stand has no bytes.
#[derive(Clone, Copy)]
pub struct Ends {
    pub written: usize,
    pub frozen: usize,
    pub indices: usize,
    pub index: usize,
}

// The proper fields of a client's record or row: where they end, and whether each pointer is that client's.
#[derive(Clone, Copy)]
pub struct Fields {
    pub ends: Ends,
    pub owned: bool,
}

// No bit stands for a node above n.
pub(crate) fn within(map: u16, n: usize) -> bool
    requires { n ≤ 16 }
    ensures { result ≡ ltb map (2 ^ n) }
{
    (map as u32) >> n == 0
}

// A pointer is none, or has a proper version and t + k nodes.
fn proper(s: Passed, v: Version, map: u16, nodes: usize) -> bool
    requires { nodes ≡ count map }
    ensures { result ≡ proper_front s.measures v map }
{
    if v.is_none() {
        return map == 0;
    }
    v.proper(s.measures) && nodes == s.measures.t + s.measures.k && within(map, s.measures.n)
}

// Proper, and none or of this client.
fn owned(s: Passed, own: usize, v: Version, map: u16, nodes: usize) -> bool
    requires { nodes ≡ count map }
    ensures { result ≡ allowed_front s.measures (Rule.Owner own) v map }
{
    proper(s, v, map, nodes) && (v.client as usize == own || v.is_none())
}

// By its length alone a pointer may be any.
fn allowed(s: Passed, rule: Rule, v: Version, map: u16, nodes: usize) -> bool
    requires { nodes ≡ count map }
    ensures { result ≡ allowed_front s.measures rule v map }
{
    match rule {
        Rule::Length => true,
        Rule::Proper => proper(s, v, map, nodes),
        Rule::Owner(own) => owned(s, own, v, map, nodes),
    }
}

// Seven bytes, and a digest for each node of the map.
pub(crate) fn pointer(s: Passed, rule: Rule, t: &[u8], at: usize) -> Option<usize>
    requires { at ≤ length t.now }
    ensures { Formed t.now at (rest (pointer_by s.measures rule (drop at t.now))) result }
{
    let left = t.len() - at;
    if left < 7 {
        return None;
    }
    let v = version_at(t, at);
    let map = u16_at(t, at + 5);
    let nodes = count(map);
    let size = 7 + 32 * nodes;
    if !allowed(s, rule, v, map, nodes) {
        return None;
    }
    if left < size {
        return None;
    }
    Some(at + size)
}

pub(crate) fn pointers(s: Passed, rule: Rule, n: usize, t: &[u8], at: usize) -> Option<usize>
    requires { at ≤ length t.now }
    ensures { Formed t.now at (rest (read_many (pointer_by s.measures rule) n (drop at t.now))) result }
{
    let mut p = at;
    for i in 0..n {
        p = pointer(s, rule, t, p)?;
    }
    Some(p)
}

// A field of n pointers, if its bit stands.
fn pointers_if(s: Passed, rule: Rule, stands: bool, n: usize, t: &[u8], at: usize) -> Option<usize>
    requires { at ≤ length t.now }
    ensures { Formed t.now at (after_if (pointer_by s.measures rule) (Field.pointers n) stands (drop at t.now)) result }
{
    if !stands {
        return Some(at);
    }
    pointers(s, rule, n, t, at)
}

// A field of n indices, if its bit stands, whatever a pointer is.
fn indices_if(stands: bool, n: usize, t: &[u8], at: usize) -> Option<usize>
    requires { (n ≤ 8) × (at ≤ length t.now) }
    ensures { Indexed n stands t.now at result }
{
    if !stands {
        return Some(at);
    }
    if t.len() - at < 4 * n {
        return None;
    }
    Some(at + 4 * n)
}

// The fields whose bit stands, one after the other.
pub(crate) fn field_ends(s: Passed, rule: Rule, map: u8, t: &[u8], at: usize) -> Option<Ends>
    requires { at ≤ length t.now }
    ensures { Parted s.measures rule t.now at map result }
{
    let written = pointers_if(s, rule, map % 2 == 1, 1, t, at)?;
    let frozen = pointers_if(s, rule, map / 2 % 2 == 1, s.measures.m, t, written)?;
    let indices = indices_if(map / 2 / 2 % 2 == 1, s.measures.m, t, frozen)?;
    let index = indices_if(map / 2 / 2 / 2 % 2 == 1, 1, t, indices)?;
    Some(Ends {
        written,
        frozen,
        indices,
        index,
    })
}

// One walk where all are the owner's; a second tells a pointer of another client from one that breaks its rule.
fn own_fields(s: Passed, own: usize, map: u8, t: &[u8], at: usize) -> Option<Fields>
    requires { at ≤ length t.now }
    ensures { OwnParted s.measures own t.now at map result }
{
    if let Some(ends) = field_ends(s, Rule::Owner(own), map, t, at) {
        return Some(Fields { ends, owned: true });
    }
    let ends = field_ends(s, Rule::Proper, map, t, at)?;
    Some(Fields { ends, owned: false })
}

// A directory record that is all of the bytes: its map, then its length, then the rules of its pointers, then their owner.
pub(crate) fn whole_record(s: Passed, own: usize, t: &[u8]) -> Result<Fields, Refusal>
    ensures { Recorded s.measures own t.now result }
{
    if t.len() < 1 {
        return Err(Refusal::Length);
    }
    let map = t[0];
    if MAPS <= map {
        return Err(Refusal::Form);
    }
    let Some(e) = field_ends(s, Rule::Length, map, t, 1) else {
        return Err(Refusal::Length);
    };
    if e.index < t.len() {
        return Err(Refusal::Length);
    }
    own_fields(s, own, map, t, 1).ok_or(Refusal::Rule)
}

// The longest pointer: a version, a map and t + k digests.
pub(crate) fn pointer_size(s: Passed) -> usize
    ensures { result ≡ pointer_size s.measures }
{
    7 + 32 * (s.measures.t + s.measures.k)
}

// The bytes of a directory row.
pub(crate) fn row_size(s: Passed) -> usize
    ensures { result ≡ row_size s.measures }
{
    let size = pointer_size(s);
    1 + (s.measures.m + 1) * size + 4 * s.measures.m + 4
}

// The row of a client, of so many bytes: whether each pointer is its own, if the row keeps its form.
fn row(s: Passed, size: usize, own: usize, t: &[u8], at: usize) -> Option<bool>
    requires { (size ≡ row_size s.measures) × (at + row_size s.measures ≤ length t.now) }
    ensures { Rowed s.measures own t.now at result }
{
    if t[at] != ROW_MAP {
        return None;
    }
    let fields = own_fields(s, own, ROW_MAP, t, at + 1)?;
    if !zero_run(t, fields.ends.index, at + size) {
        return None;
    }
    Some(fields.owned)
}

// Of the whole table whether each pointer is its row's client's, in one pass: a row that breaks its form is told before a pointer of another client, wherever they stand.
pub(crate) fn rows(s: Passed, size: usize, t: &[u8]) -> Option<bool>
    requires { (size ≡ row_size s.measures) × (s.measures.m * row_size s.measures ≤ length t.now) }
    ensures { Tabled s.measures t.now result }
{
    let mut all = true;
    for i in 0..s.measures.m {
        let owned = row(s, size, i, t, i * size)?;
        all &= owned;
    }
    Some(all)
}

// Of a table, or of rows handed over, with no record beside it: 4, then 14.
pub(crate) fn directory(s: Passed, size: usize, t: &[u8]) -> Result<(), Refusal>
    requires { (size ≡ row_size s.measures) × (s.measures.m * row_size s.measures ≤ length t.now) }
    ensures { Judged s.measures t.now result }
{
    match rows(s, size, t) {
        Some(true) => Ok(()),
        Some(false) => Err(Refusal::Owner),
        None => Err(Refusal::Form),
    }
}
