// The grid of the powers of some points, reduced to the identity beside its inverse.
ghost use Rattle.std.specs.Prelude.{◌≡◌, ℕ, ◌<◌, ◌≤◌, [], length, ◌≢◌, slice_index, slice_index_or};
ghost use Rattle.coding.specs.Field.{◌⊕◌, product};
ghost use Rattle.coding.specs.Grid.{Distinct, entry, Powers, Scaled, Added, Cleared, Reduced, Inverts};

use super::field::{inv, mul};

// The powers of `x` beside row `s` of the identity.
fn powers(x: u8, s: usize, k: usize) -> [u8; 32]
    requires { (s < 16) × (k ≤ 16) }
    ensures { Powers k x s result }
{
    let mut row = [0u8; 32];
    let mut power = 1;
    for t in 0..k {
        row[t] = power;
        power = mul(power, x);
    }
    row[16 + s] = 1;
    row
}

// Row `s` is of node `s`.
fn build(nodes: &[u8]) -> [[u8; 32]; 16]
    requires { length nodes.now ≤ 16 }
    ensures { (s : ℕ) → s < length nodes.now → Powers (length nodes.now) (slice_index nodes.now s) s (slice_index_or result s []) }
{
    let mut m = [[0u8; 32]; 16];
    for s in 0..nodes.len() {
        m[s] = powers(nodes[s], s, nodes.len());
    }
    m
}

// The sum of `a` and `f` times `b`.
fn added(a: u8, f: u8, b: u8) -> u8
    ensures { result ≡ a ⊕ product f b }
{
    a ^ mul(f, b)
}

// The sum of `row` and `f` times `other`.
fn add_row(row: [u8; 32], f: u8, other: [u8; 32], k: usize) -> [u8; 32]
    requires { k ≤ 16 }
    ensures { Added k f row other result }
{
    let mut out = row;
    for t in 0..k {
        out[t] = added(row[t], f, other[t]);
        out[16 + t] = added(row[16 + t], f, other[16 + t]);
    }
    out
}

fn scale(row: [u8; 32], f: u8, k: usize) -> [u8; 32]
    requires { k ≤ 16 }
    ensures { Scaled k f row result }
{
    add_row([0u8; 32], f, row, k)
}

// Row `r`, once the row `pivot` has cleared column `c`.
fn clear(row: [u8; 32], r: usize, pivot: [u8; 32], c: usize, k: usize) -> [u8; 32]
    requires { (c < 16) × (k ≤ 16) }
    ensures { Cleared k c r pivot row result }
{
    if r == c {
        return pivot;
    }
    add_row(row, row[c], pivot, k)
}

fn clear_rows(m: [[u8; 32]; 16], pivot: [u8; 32], c: usize, k: usize) -> [[u8; 32]; 16]
    requires { (c < 16) × (k ≤ 16) }
    ensures { (r : ℕ) → r < k → Cleared k c r pivot (slice_index_or m r []) (slice_index_or result r []) }
{
    let mut out = m;
    for r in 0..k {
        out[r] = clear(m[r], r, pivot, c, k);
    }
    out
}

// Column `c` becomes the identity's.
fn reduce(m: [[u8; 32]; 16], c: usize, k: usize) -> [[u8; 32]; 16]
    requires { (c < k) × (k ≤ 16) × (entry m c c ≢ 0) }
    ensures { Reduced k c m result }
{
    let f = inv(m[c][c]);
    let pivot = scale(m[c], f, k);
    clear_rows(m, pivot, c, k)
}

// The inverse of the grid of the powers of the nodes, beside the identity. No pivot is 0: else the polynomial whose roots are the
// nodes before node `c` would have a further root there.
pub fn invert(nodes: &[u8]) -> [[u8; 32]; 16]
    requires { (length nodes.now ≤ 16) × Distinct nodes.now }
    ensures { Inverts (length nodes.now) nodes.now result }
{
    let mut m = build(nodes);
    for c in 0..nodes.len() {
        let next = reduce(m, c, nodes.len());
        m = next;
    }
    m
}
