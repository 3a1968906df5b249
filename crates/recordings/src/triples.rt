// Samples of three bytes from their planes, sixteen at a time: 48 bytes are gathered and stored at once.
ghost use Rattle.std.specs.Prelude.{◌≡◌, ℕ, ◌+◌, ◌*◌, ◌/◌, ◌%◌, ◌<◌, ◌≤◌, length, get_or};
ghost use Rattle.std.proofs.Math.Seq.{paste};
ghost use Rattle.coding.specs.Areas.{Columns};
ghost use Rattle.recordings.specs.Planes.{among_planes};

use crate::moves::{interleaved, store};

// Sixteen samples from s on. They are stored when all are read, so that the compiler moves whole vectors.
fn gather(n: usize, s: usize, bytes: &[u8]) -> [u8; 48]
    requires { (s + 16 ≤ n) × (n * 3 ≤ length bytes.now) }
    ensures { (l : ℕ) → l < 48 → get_or result l 0 ≡ get_or bytes.now (among_planes n (s + l / 3) (l % 3)) 0 }
{
    interleaved::<3, 48>(bytes, s, n)
}

// As many samples as there are sixteens of; the answer is their number.
pub fn write_triples(n: usize, bytes: &[u8], out: &mut [u8]) -> usize
    requires { (n * 3 ≤ length bytes.now) × (n * 3 ≤ length out.old) }
    ensures { (result ≤ n)
        × Columns result 3 0 3 (λ i p. get_or bytes.now (among_planes n i p) 0) out.old out.new }
{
    for k in 0..n / 16 {
        store(out, 48 * k, gather(n, 16 * k, bytes));
    }
    n / 16 * 16
}
