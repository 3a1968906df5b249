// A client's record: sizes of its area, and its form test.
ghost use Rattle.std.specs.Prelude.{◌≡◌, true, cond, ◌&&◌, ◌+◌, ◌*◌, ◌^◌, ◌≤◌, ◌<◌, length, drop, ltb};
ghost use Rattle.std.proofs.Math.Option.{some, none};
ghost use Rattle.parties.specs.protocol.Measures.{pointer_size};
ghost use Rattle.parties.specs.protocol.Nodes.{count as counted};
ghost use Rattle.parties.specs.protocol.Format.{read_many, read_area, read_bytes};
ghost use Rattle.parties.specs.protocol.Message.{proper_version};
ghost use Rattle.parties.specs.protocol.Client.{read_reserved, pointer_area, read_retained, read_page, read_stores, read_some, read_pieces};
ghost use Rattle.parties.specs.protocol.Client.{read_fetches, read_work, work_size, read_client};
ghost use Rattle.parties.specs.records.Form.{rest, Formed};
ghost use Rattle.parties.specs.client.Record.{record_of, area_size, work_at, is_some};

use crate::client::step::{
    FETCHING, FREEZING, IDLE, PICKING, RAISING, SCANNING, STORING, UPDATING,
};
use crate::protocol::measures::Passed;
use crate::records::bytes::{u16_at, u32_at, zero_run};
use crate::records::form::{Rule, pointer, pointer_size, within};
use crate::records::nodes::count;
use crate::records::version::version_at;
use crate::{Measures, Phase, Version};

// Where the work stands in the area.
pub fn work_at(s: Passed) -> usize
    ensures { result ≡ work_at s.measures }
{
    let size = pointer_size(s);
    (s.measures.m + 1) * size + 9 * s.measures.m
}

pub fn work_size(s: Passed) -> usize
    ensures { result ≡ work_size s.measures }
{
    let size = pointer_size(s);
    size + 4 + s.measures.n * (34 + s.measures.f)
}

pub fn area_size(s: Passed) -> usize
    ensures { result ≡ area_size s.measures }
{
    let at = work_at(s);
    let size = work_size(s);
    at + size
}

// A pointer in an area of so many bytes.
fn pointer_area(s: Passed, size: usize, t: &[u8], at: usize) -> bool
    requires { (size ≡ pointer_size s.measures) × (at + pointer_size s.measures ≤ length t.now) }
    ensures { rest (pointer_area s.measures (drop at t.now)) ≡ cond result (some (drop (at + pointer_size s.measures) t.now)) none }
{
    let Some(next) = pointer(s, Rule::Proper, t, at) else {
        return false;
    };
    zero_run(t, next, at + size)
}

// The written pointer and the m frozen ones.
fn pointer_areas(s: Passed, size: usize, t: &[u8]) -> bool
    requires { (size ≡ pointer_size s.measures) × ((s.measures.m + 1) * pointer_size s.measures ≤ length t.now) }
    ensures { rest (read_many (pointer_area s.measures) (s.measures.m + 1) t.now) ≡ cond result (some (drop ((s.measures.m + 1) * pointer_size s.measures) t.now)) none }
{
    for i in 0..s.measures.m + 1 {
        if !pointer_area(s, size, t, i * size) {
            return false;
        }
    }
    true
}

// A reserved version is none or a proper one.
fn reserved_version(s: Measures, t: &[u8], at: usize) -> bool
    requires { at + 5 ≤ length t.now }
    ensures { rest (read_reserved s (drop at t.now)) ≡ cond result (some (drop (at + 5) t.now)) none }
{
    let v = version_at(t, at);
    if v.is_none() {
        return true;
    }
    v.proper(s)
}

fn reserved_versions(s: Measures, t: &[u8], from: usize) -> bool
    requires { from + s.m * 5 ≤ length t.now }
    ensures { rest (read_many (read_reserved s) s.m (drop from t.now)) ≡ cond result (some (drop (from + s.m * 5) t.now)) none }
{
    for i in 0..s.m {
        if !reserved_version(s, t, from + i * 5) {
            return false;
        }
    }
    true
}

// What is kept between operations. Any four bytes are an index.
fn retained(s: Passed, t: &[u8]) -> bool
    requires { work_at s.measures ≤ length t.now }
    ensures { rest (read_retained s.measures t.now) ≡ cond result (some (drop (work_at s.measures) t.now)) none }
{
    let size = pointer_size(s);
    if !pointer_areas(s, size, t) {
        return false;
    }
    reserved_versions(s.measures, t, (s.measures.m + 1) * size)
}

// A page with its length.
fn page_form(s: Passed, t: &[u8], at: usize) -> Option<usize>
    requires { at + work_size s.measures ≤ length t.now }
    ensures { Formed t.now at (rest (read_page s.measures (drop at t.now))) result }
{
    let n = u32_at(t, at) as usize;
    if s.measures.k * s.measures.f - 4 < n {
        return None;
    }
    Some(at + 4 + n)
}

// What is stored has a drawn version, and fewer than t + k nodes that acknowledged it.
fn proper_stores(s: Passed, v: Version, map: u16) -> bool
    ensures { result ≡ (proper_version s.measures v && (ltb map (2 ^ s.measures.n) && ltb (counted map) (s.measures.t + s.measures.k))) }
{
    if !v.proper(s.measures) {
        return false;
    }
    if !within(map, s.measures.n) {
        return false;
    }
    count(map) < s.measures.t + s.measures.k
}

fn stores_form(s: Passed, t: &[u8], at: usize) -> Option<usize>
    requires { at + work_size s.measures ≤ length t.now }
    ensures { Formed t.now at (rest (read_stores s.measures (drop at t.now))) result }
{
    let v = version_at(t, at);
    let map = u16_at(t, at + 5);
    if !proper_stores(s, v, map) {
        return None;
    }
    Some(at + 7 + s.measures.n * 32)
}

// A pointer other than none.
fn some_form(s: Passed, t: &[u8], at: usize) -> Option<usize>
    requires { at + 5 ≤ length t.now }
    ensures { Formed t.now at (rest (read_some s.measures (drop at t.now))) result }
{
    if version_at(t, at).is_none() {
        return None;
    }
    pointer(s, Rule::Proper, t, at)
}

// A piece of l bytes in its area.
fn piece(s: Measures, l: usize, t: &[u8], at: usize) -> bool
    requires { at + s.f ≤ length t.now }
    ensures { rest (read_area s.f (read_bytes l) (λ p. p) (drop at t.now)) ≡ cond result (some (drop (at + s.f) t.now)) none }
{
    if s.f < l {
        return false;
    }
    let to = at + s.f;
    zero_run(t, at + l, to)
}

// The lengths of n pieces, then their areas.
fn pieces(s: Passed, t: &[u8], from: usize) -> bool
    requires { from + 2 * s.measures.n + s.measures.n * s.measures.f ≤ length t.now }
    ensures { rest (read_pieces s.measures (drop from t.now)) ≡ cond result (some (drop (from + 2 * s.measures.n + s.measures.n * s.measures.f) t.now)) none }
{
    let areas = from + 2 * s.measures.n;
    for i in 0..s.measures.n {
        let l = u16_at(t, from + 2 * i) as usize;
        if !piece(s.measures, l, t, areas + i * s.measures.f) {
            return false;
        }
    }
    true
}

// A pointer, the nodes whose reply is counted, fewer than k whose piece matches, and the pieces.
fn fetches_form(s: Passed, t: &[u8], at: usize) -> Option<usize>
    requires { at + work_size s.measures ≤ length t.now }
    ensures { Formed t.now at (rest (read_fetches s.measures (drop at t.now))) result }
{
    let p = some_form(s, t, at)?;
    let m = u16_at(t, p + 2);
    if !within(m, s.measures.n) {
        return None;
    }
    if s.measures.k <= count(m) {
        return None;
    }
    if !pieces(s, t, p + 4) {
        return None;
    }
    Some(p + 4 + 2 * s.measures.n + s.measures.n * s.measures.f)
}

// The work of a phase; idle, raising and picking have none.
fn work_form(s: Passed, step: u8, t: &[u8], at: usize) -> Option<usize>
    requires { at + work_size s.measures ≤ length t.now }
    ensures { Formed t.now at (rest (read_work s.measures step (drop at t.now))) result }
{
    match step {
        SCANNING => page_form(s, t, at),
        STORING => stores_form(s, t, at),
        UPDATING | FREEZING => some_form(s, t, at),
        FETCHING => fetches_form(s, t, at),
        IDLE => Some(at),
        RAISING | PICKING => Some(at),
        _ => None,
    }
}

// Whether the phase and the area are a client's record.
pub fn sound(s: Passed, p: Phase, area: &[u8]) -> bool
    requires { area_size s.measures ≤ length area.now }
    ensures { result ≡ is_some (read_client s.measures (record_of p area.now)) }
{
    let at = work_at(s);
    let size = work_size(s);
    if !retained(s, area) {
        return false;
    }
    let step = p.step;
    let Some(next) = work_form(s, step, area, at) else {
        return false;
    };
    zero_run(area, next, at + size)
}
