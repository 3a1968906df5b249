// The nodes that a bit map names: bit i - 1 is node i's.
ghost use Rattle.std.specs.Prelude.{◌≡◌, ℕ, ◌+◌, ◌-◌, ◌/◌, ◌%◌, ◌^◌, ◌<◌, ◌≤◌, [], ◌∷◌, ◌++◌, length, ◌==◌, nat_lt, slice_index};
ghost use Rattle.coding.specs.Nodes.{sound, nodes_of};

use std::marker::Model;

// Up to 16 nodes.
#[derive(Drop)]
pub struct Nodes {
    list: [u8; 16],
    count: usize,
}

impl Model for Nodes {
    ghost use Rattle.std.specs.Prelude.{ℕ, ◌≤◌, List, take};

    ghost Value = { List ℕ };

    ghost view = { λ n. take n.count n.list };

    ghost invariant = { λ n. n.count ≤ 16 };
}

impl Nodes {
    fn none() -> Nodes
        ensures { result ≡ [] }
    {
        Nodes {
            list: [0; 16],
            count: 0,
        }
    }

    fn push(&mut self, node: u8)
        requires { length self.old < 16 }
        ensures { self.new ≡ self.old ++ node ∷ [] }
    {
        self.list[self.count] = node;
        self.count += 1;
    }

    pub fn as_slice(&self) -> &[u8]
        ensures { result.now ≡ self.now }
    {
        &self.list[..self.count]
    }
}

fn stands(map: u16, i: usize) -> bool
    requires { i < 16 }
    ensures { result ≡ (map / 2 ^ i % 2 == 1) }
{
    (map >> i) & 1 == 1
}

// No bit stands for a node above n.
pub fn within(map: u16, n: usize) -> bool
    requires { n ≤ 16 }
    ensures { result ≡ nat_lt map (2 ^ n) }
{
    u32::from(map) >> n == 0
}

// The nodes from 1 to n, ascending.
pub fn named(map: u16, n: usize) -> Nodes
    requires { n ≤ 16 }
    ensures { result ≡ nodes_of map n }
{
    let mut nodes = Nodes::none();
    for i in 0..n {
        if stands(map, i) {
            nodes.push((i + 1) as u8);
        }
    }
    nodes
}

// The length of a node's piece.
pub fn length_of(node: u8, lens: &[u16]) -> usize
    requires { (1 ≤ node) × (node ≤ length lens.now) }
    ensures { result ≡ slice_index lens.now (node - 1) }
{
    usize::from(lens[usize::from(node) - 1])
}

// The pieces of the nodes have one length, from 1 to f.
pub fn sound_lengths(nodes: &[u8], f: usize, lens: &[u16]) -> bool
    requires { (s : ℕ) → s < length nodes.now → (1 ≤ slice_index nodes.now s) × (slice_index nodes.now s ≤ length lens.now) }
    ensures { result ≡ sound f lens.now nodes.now }
{
    if nodes.is_empty() {
        return true;
    }
    let first = length_of(nodes[0], lens);
    if first < 1 || f < first {
        return false;
    }
    for s in 1..nodes.len() {
        if length_of(nodes[s], lens) != first {
            return false;
        }
    }
    true
}
