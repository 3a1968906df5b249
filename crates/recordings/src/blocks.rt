// Planes of samples of three bytes, 16 samples to a block. A block's 48 bytes are shuffled four times, its halves interleaved: then the byte
// that stood at 3s + p stands at 16p + s. For 16 bytes an interleaving is one instruction, and every third byte would be sixteen loads.
ghost use Rattle.std.specs.Prelude.{◌≡◌, ℕ, ◌+◌, ◌*◌, ◌/◌, ◌%◌, ◌<◌, ◌≤◌, length, get_or};
ghost use Rattle.std.proofs.Math.Seq.{paste};
ghost use Rattle.coding.specs.Bytes.{tabulate};
ghost use Rattle.coding.specs.Areas.{Columns};
ghost use Rattle.recordings.specs.Planes.{among_samples};
ghost use Rattle.recordings.specs.Shuffle.{shuffled, in_blocks};

use crate::moves::{interleaved, store};

// The blocks that go together, and their bytes and samples: with fewer, what a shuffle stores is read again too soon after.
const BLOCKS: usize = 32;

const LENGTH: usize = 1536;

const SAMPLES: usize = 512;

// Eight bytes from a place on, interleaved with the eight that lie half a block after them.
fn pairs(from: &[u8], at: usize) -> [u8; 16]
    requires { at + 32 ≤ length from.now }
    ensures { (l : ℕ) → l < 16 → get_or result l 0 ≡ get_or from.now (at + shuffled l) 0 }
{
    interleaved::<2, 16>(from, at, 24)
}

// As many blocks as go together are shuffled, each by itself.
fn shuffle(from: &[u8], at: usize, to: &mut [u8])
    requires { (at + 1536 ≤ length from.now) × (1536 ≤ length to.old) }
    ensures { to.new ≡ paste to.old 0
        (tabulate 1536 (λ m. get_or from.now (at + in_blocks shuffled m) 0)) 1536 }
{
    for k in 0..BLOCKS {
        let f = at + 48 * k;
        let t = 48 * k;
        store(to, t, pairs(from, f));
        store(to, t + 16, pairs(from, f + 8));
        store(to, t + 32, pairs(from, f + 16));
    }
}

// The same, each third of a block to its plane. It stays a function beside `shuffle`: one for both would promise bytes at places, where these
// promise a front and planes, which is all that their callers need.
fn spread(n: usize, s: usize, from: &[u8], out: &mut [u8])
    requires { (s + 512 ≤ n) × (1536 ≤ length from.now) × (3 * n ≤ length out.old) }
    ensures { Columns 3 n s 512 (λ p l. get_or from.now (l / 16 * 48 + shuffled (p * 16 + l % 16)) 0)
        out.old out.new }
{
    for k in 0..BLOCKS {
        let f = 48 * k;
        let t = s + 16 * k;
        store(out, t, pairs(from, f));
        store(out, n + t, pairs(from, f + 8));
        store(out, 2 * n + t, pairs(from, f + 16));
    }
}

// The samples s to s + 511.
fn write_block(n: usize, s: usize, bytes: &[u8], x: &mut [u8], y: &mut [u8], out: &mut [u8])
    requires { (s + 512 ≤ n) × (3 * n ≤ length bytes.now) × (length x.old ≡ 1536) × (length y.old ≡ 1536)
        × (3 * n ≤ length out.old) }
    ensures { Columns 3 n s 512 (λ p l. get_or bytes.now (among_samples 3 (s + l) p) 0) out.old out.new }
{
    shuffle(bytes, 3 * s, x);
    shuffle(x, 0, y);
    shuffle(y, 0, x);
    spread(n, s, x, out);
}

// As many samples as such blocks have; the answer is their number.
pub fn write_blocks(n: usize, bytes: &[u8], out: &mut [u8]) -> usize
    requires { (3 * n ≤ length bytes.now) × (3 * n ≤ length out.old) }
    ensures { (result ≤ n)
        × Columns 3 n 0 result (λ p s. get_or bytes.now (among_samples 3 s p) 0) out.old out.new }
{
    let mut x = [0u8; LENGTH];
    let mut y = [0u8; LENGTH];
    for b in 0..n / SAMPLES {
        write_block(n, b * SAMPLES, bytes, &mut x, &mut y, out);
    }
    n / SAMPLES * SAMPLES
}
