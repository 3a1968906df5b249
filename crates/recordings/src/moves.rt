// Bytes that are moved together. How many there are is known when the program is compiled, so that the compiler moves whole vectors.
ghost use Rattle.std.specs.Prelude.{◌≡◌, ℕ, ◌+◌, ◌-◌, ◌*◌, ◌/◌, ◌%◌, ◌<◌, ◌≤◌, length, get_or};
ghost use Rattle.std.proofs.Math.Seq.{paste};

// The first bytes of K rows, which lie so far apart, then their second bytes, and so on.
pub fn interleaved<const K: usize, const N: usize>(from: &[u8], at: usize, apart: usize) -> [u8; N]
    requires whole { (0 < K) × (N / K * K ≡ N) }
    requires within { at + (K - 1) * apart + N / K ≤ length from.now }
    ensures { (l : ℕ) → l < N → get_or result l 0 ≡ get_or from.now (at + l % K * apart + l / K) 0 }
{
    let mut v = [0u8; N];
    for i in 0..N / K {
        for p in 0..K {
            v[i * K + p] = from[at + p * apart + i];
        }
    }
    v
}

pub fn store<const N: usize>(to: &mut [u8], at: usize, v: [u8; N])
    requires { at + N ≤ length to.old }
    ensures { to.new ≡ paste to.old at v.entry N }
{
    to[at..at + N].copy_from_slice(&v);
}
