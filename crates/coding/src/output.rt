// Frame bytes from lanes to their places in the output.
ghost use Rattle.std.specs.Prelude.{◌≡◌, ℕ, ◌+◌, ◌-◌, ◌*◌, ◌^◌, ◌<◌, ◌≤◌, length, slice_index};
ghost use Rattle.coding.specs.Output.{Placed, Stride};

// 16 lanes to places of the page, k apart; its length is for the contract alone.
fn scatter_inside(v: [u8; 16], from: usize, k: usize, len: usize, out: &mut [u8])
    requires { (4 ≤ from) × (from - 4 + 15 * k < len) × (len ≤ length out.old) × (k ≤ 16) }
    ensures { (g : ℕ → ℕ) → ((l : ℕ) → l < 16 → slice_index v l ≡ g (from + l * k)) → Placed g len (Stride from k 16) out.old out.new }
{
    for l in 0..16 {
        out[from - 4 + l * k] = v[l];
    }
}

// Frame byte p to its place, if it is the page's.
fn put(x: u8, p: usize, len: usize, out: &mut [u8])
    requires { len ≤ length out.old }
    ensures { (g : ℕ → ℕ) → x ≡ g p → Placed g len (◌≡◌ p) out.old out.new }
{
    if 4 <= p && p - 4 < len {
        out[p - 4] = x;
    }
}

// m lanes to their places, where some are length bytes or filling.
fn scatter_edge(v: [u8; 16], m: usize, from: usize, k: usize, len: usize, out: &mut [u8])
    requires { (m ≤ 16) × (from < 2 ^ 32) × (len ≤ length out.old) × (k ≤ 16) }
    ensures { (g : ℕ → ℕ) → ((l : ℕ) → l < m → slice_index v l ≡ g (from + l * k)) → Placed g len (Stride from k m) out.old out.new }
{
    for l in 0..m {
        put(v[l], from + l * k, len, out);
    }
}

pub fn scatter(v: [u8; 16], m: usize, from: usize, k: usize, len: usize, out: &mut [u8])
    requires { (m ≤ 16) × (from < 2 ^ 32) × (len ≤ length out.old) × (k ≤ 16) }
    ensures { (g : ℕ → ℕ) → ((l : ℕ) → l < m → slice_index v l ≡ g (from + l * k)) → Placed g len (Stride from k m) out.old out.new }
{
    if m == 16 && 4 <= from && from - 4 + 15 * k < len {
        scatter_inside(v, from, k, len, out);
    } else {
        scatter_edge(v, m, from, k, len, out);
    }
}
