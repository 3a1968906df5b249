// The frame as a function of a byte's position: length bytes, page bytes and zeros come from their sources.
ghost use Rattle.std.specs.Prelude.{◌≡◌, ℕ, ◌+◌, ◌-◌, ◌*◌, ◌^◌, ◌<◌, ◌≤◌, length, slice_index};
ghost use Rattle.coding.specs.Frame.{frame_byte};

// Byte p of the frame; past the page it is 0.
pub fn frame_byte(page: &[u8], p: usize) -> u8
    ensures { result ≡ frame_byte page.now p }
{
    let n = page.len();
    // No `to_be_bytes`: its array would have other than sixteen numbers.
    match p {
        0 => (n / 256 / 256 / 256 % 256) as u8,
        1 => (n / 256 / 256 % 256) as u8,
        2 => (n / 256 % 256) as u8,
        3 => (n % 256) as u8,
        _ => page.get(p - 4).copied().unwrap_or(0),
    }
}

// 16 bytes of the page, k apart.
fn gather_inside(page: &[u8], from: usize, k: usize) -> [u8; 16]
    requires { (from + 15 * k < length page.now) × (k ≤ 16) }
    ensures { (l : ℕ) → l < 16 → slice_index result l ≡ slice_index page.now (from + l * k) }
{
    let mut v = [0u8; 16];
    for l in 0..16 {
        v[l] = page[from + l * k];
    }
    v
}

// m bytes of the frame, k apart, where some are length bytes or zeros.
fn gather_edge(page: &[u8], from: usize, k: usize, m: usize) -> [u8; 16]
    requires { (from + 16 * k < 2 ^ 32) × (k ≤ 16) × (m ≤ 16) }
    ensures { (l : ℕ) → l < m → slice_index result l ≡ frame_byte page.now (from + l * k) }
{
    let mut v = [0u8; 16];
    for l in 0..m {
        v[l] = frame_byte(page, from + l * k);
    }
    v
}

// m bytes of the frame, k apart. The count is not known, so that the compiler keeps the loop at the edges small and puts the loads where
// they are used: right for one piece.
pub fn gather(page: &[u8], from: usize, k: usize, m: usize) -> [u8; 16]
    requires { (from + 16 * k < 2 ^ 32) × (k ≤ 16) × (m ≤ 16) }
    ensures { (l : ℕ) → l < m → slice_index result l ≡ frame_byte page.now (from + l * k) }
{
    if 4 <= from && from - 4 + 15 * k < page.len() {
        gather_inside(page, from - 4, k)
    } else {
        gather_edge(page, from, k, m)
    }
}

// 16 bytes of the frame, k apart. The count is known, so that the compiler makes a call of it, and the bytes come through memory: right
// for several pieces, of which each takes the row. With `gather` in its place a split at (4, 8) takes 8 % longer.
pub fn gather_whole(page: &[u8], from: usize, k: usize) -> [u8; 16]
    requires { (from + 16 * k < 2 ^ 32) × (k ≤ 16) }
    ensures { (l : ℕ) → l < 16 → slice_index result l ≡ frame_byte page.now (from + l * k) }
{
    gather(page, from, k, 16)
}
