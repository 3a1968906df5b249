// Joining pieces into their page, which is written into the output only.
ghost use Rattle.std.specs.Prelude.{◌≡◌, ℕ, ◌+◌, ◌-◌, ◌*◌, ◌^◌, ◌<◌, ◌≤◌, true, length, drop, nat_eq, slice_index};
ghost use Rattle.coding.specs.Grid.{Distinct};
ghost use Rattle.coding.specs.Bytes.{from_four};
ghost use Rattle.coding.specs.Output.{Placed, Stride, Within};
ghost use Rattle.coding.specs.Pieces.{proper};
ghost use Rattle.coding.specs.Answer.{outcome};
ghost use Rattle.coding.specs.Nodes.{all};
ghost use Rattle.coding.specs.Join.{joined, page_of, page_end, Joins, join as joinEnd};

use crate::answer::Refusal;
use crate::areas::load;
use crate::grid::invert;
use crate::lanes::{fold, spread};
use crate::measures::measured;
use crate::nodes::{length_of, named, sound_lengths, within};
use crate::output::scatter;
use std::marker::Model;

// The frame whose pieces some nodes have, each in its area of f bytes of the room. It is read by the grid that weighs the pieces, and
// never laid out.
#[derive(Drop)]
struct Frame<'a> {
    nodes: &'a [u8],
    f: usize,
    columns: usize,
    room: &'a [u8],
    grid: [[u8; 32]; 16],
}

impl<'a> Model for Frame<'a> {
    ghost use Rattle.std.specs.Prelude.{◌≤◌, length};
    ghost use Rattle.coding.specs.Bytes.{Bytes};
    ghost use Rattle.coding.specs.Grid.{Inverts};
    ghost use Rattle.coding.specs.Output.{Within};
    ghost use Rattle.coding.specs.Join.{JoinedFrame, joined};

    ghost Value = { JoinedFrame };

    ghost view = { λ a. record { k = length a.nodes.now; columns = a.columns; bytes = joined a.f a.room.now a.nodes.now a.columns } };

    ghost invariant = { λ a. (1 ≤ length a.nodes.now) × (length a.nodes.now ≤ 16) × (a.f ≤ 4096) × (a.columns ≤ a.f)
        × Within (length a.room.now) (length a.nodes.now) a.f a.nodes.now × Bytes a.room.now × Inverts (length a.nodes.now) a.nodes.now a.grid };
}

impl<'a> Frame<'a> {
    fn size(&self) -> usize
        ensures { result ≡ length self.now.bytes }
    {
        self.columns * self.nodes.len()
    }

    // Row r in the m columns from j on: the nodes' bytes, weighed.
    #[inline(always)]
    fn weighed(&self, r: usize, j: usize, m: usize) -> [u8; 16]
        requires { (r < self.now.k) × (m ≤ 16) × (j + m ≤ self.now.columns) }
        ensures { (l : ℕ) → l < m → slice_index result l ≡ slice_index self.now.bytes ((j + l) * self.now.k + r) }
    {
        let mut sums = [[0u8; 16]; 8];
        for s in 0..self.nodes.len() {
            let at = (usize::from(self.nodes[s]) - 1) * self.f + j;
            let next = spread(sums, load(self.room, at, m), self.grid[r][16 + s]);
            sums = next;
        }
        fold(sums)
    }

    // The same; a whole block goes apart, so that its count is known and a load is one instruction.
    fn weigh(&self, r: usize, j: usize, m: usize) -> [u8; 16]
        requires { (r < self.now.k) × (m ≤ 16) × (j + m ≤ self.now.columns) }
        ensures { (l : ℕ) → l < m → slice_index result l ≡ slice_index self.now.bytes ((j + l) * self.now.k + r) }
    {
        if m == 16 {
            self.weighed(r, j, 16)
        } else {
            self.weighed(r, j, m)
        }
    }

    // Row r, 16 columns at a time, to its places in the page.
    fn write_row(&self, r: usize, len: usize, out: &mut [u8])
        requires { (r < self.now.k) × (len ≤ length out.old) }
        ensures { Placed (λ p. slice_index self.now.bytes p) len (Stride r self.now.k self.now.columns) out.old out.new }
    {
        let k = self.nodes.len();
        for j in (0..self.columns).step_by(16) {
            let m = (self.columns - j).min(16);
            scatter(self.weigh(r, j, m), m, j * k + r, k, len, out);
        }
    }

    // The page, once its length is known.
    fn write_page(&self, len: usize, out: &mut [u8])
        requires { len ≤ length out.old }
        ensures { Placed (λ p. slice_index self.now.bytes p) len (λ p. p < length self.now.bytes) out.old out.new }
    {
        for r in 0..self.nodes.len() {
            self.write_row(r, len, out);
        }
    }

    fn byte(&self, p: usize) -> u8
        requires { p < length self.now.bytes }
        ensures { result ≡ slice_index self.now.bytes p }
    {
        let k = self.nodes.len();
        self.weigh(p % k, p / k, 1)[0]
    }

    // The page's length, as the frame has it.
    fn page_length(&self) -> usize
        requires { 4 ≤ length self.now.bytes }
        ensures { result ≡ from_four self.now.bytes }
    {
        u32::from_be_bytes([self.byte(0), self.byte(1), self.byte(2), self.byte(3)]) as usize
    }

    fn zero_from(&self, from: usize) -> bool
        requires { from ≤ length self.now.bytes }
        ensures { result ≡ all (λ b. nat_eq b 0) (drop from self.now.bytes) }
    {
        for p in from..self.size() {
            if self.byte(p) != 0 {
                return false;
            }
        }
        true
    }
}

// Length and filling are known before any output byte is written.
fn join_columns(
    nodes: &[u8],
    f: usize,
    columns: usize,
    room: &[u8],
    out: &mut [u8],
) -> Result<usize, Refusal>
    requires { (1 ≤ length nodes.now) × (length nodes.now ≤ 16) × (f ≤ 4096) × (columns ≤ f) × (length nodes.now * f - 4 ≤ length out.old) × Within (length room.now) (length nodes.now) f nodes.now × Distinct nodes.now }
    ensures { (outcome result ≡ (page_end (page_of (length nodes.now) (joined f room.now nodes.now columns)) out.old).outcome)
        × (out.new ≡ (page_end (page_of (length nodes.now) (joined f room.now nodes.now columns)) out.old).out) }
{
    // Before the grid is inverted, which takes longer than all else of a short frame.
    let size = columns * nodes.len();
    if size < 4 {
        return Err(Refusal::Form);
    }
    let frame = Frame {
        nodes,
        f,
        columns,
        room,
        grid: invert(nodes),
    };
    let len = frame.page_length();
    if size - 4 < len || nodes.len() <= size - 4 - len || !frame.zero_from(4 + len) {
        return Err(Refusal::Form);
    }
    frame.write_page(len, out);
    Ok(len)
}

// The pieces that are present, once measures, slices and bit map are sound.
fn join_present(
    n: usize,
    k: usize,
    f: usize,
    present: u16,
    room: &[u8],
    lens: &[u16],
    out: &mut [u8],
) -> Result<usize, Refusal>
    requires { (proper n k f ≡ true) × (n * f ≤ length room.now) × (n ≤ length lens.now) × (k * f - 4 ≤ length out.old) × (present < 2 ^ n) }
    ensures { (outcome result ≡ (joinEnd n k f present room.now lens.now out.old).outcome)
        × (out.new ≡ (joinEnd n k f present room.now lens.now out.old).out) }
{
    let listed = named(present, n);
    let nodes = listed.as_slice();
    if !sound_lengths(nodes, f, lens) {
        return Err(Refusal::Form);
    }
    if nodes.len() < k {
        return Err(Refusal::TooFew);
    }
    join_columns(&nodes[..k], f, length_of(nodes[0], lens), room, out)
}

// Joins the pieces that a bit map names into their page. The room is n areas of f bytes; entry i - 1 of the lengths is that of
// the piece in area i.
pub fn join(
    n: usize,
    k: usize,
    f: usize,
    present: u16,
    room: &[u8],
    lens: &[u16],
    out: &mut [u8],
) -> Result<usize, Refusal>
    ensures { (outcome result ≡ (joinEnd n k f present room.now lens.now out.old).outcome)
        × (out.new ≡ (joinEnd n k f present room.now lens.now out.old).out)
        × Joins n k f present room.now lens.now out.old (outcome result) out.new }
{
    measured(n, k, f)?;
    if room.len() < n * f || lens.len() < n || out.len() < k * f - 4 {
        return Err(Refusal::Short);
    }
    if !within(present, n) {
        return Err(Refusal::Form);
    }
    join_present(n, k, f, present, room, lens, out)
}
