// SHA-256 (FIPS 180-4); the names are the standard's.
ghost use Rattle.std.specs.Prelude.{◌≡◌, ℕ, ◌+◌, ◌*◌, ◌/◌, ◌%◌, ◌^◌, ◌<◌, ◌≤◌, List, ◌++◌, length, take};
ghost use Rattle.coding.specs.Sha256 as spec;
ghost use Rattle.coding.specs.Sha256.{◌!◌};

static K: [u32; 64] = [
    0x428a2f98, 0x71374491, 0xb5c0fbcf, 0xe9b5dba5, 0x3956c25b, 0x59f111f1, 0x923f82a4, 0xab1c5ed5,
    0xd807aa98, 0x12835b01, 0x243185be, 0x550c7dc3, 0x72be5d74, 0x80deb1fe, 0x9bdc06a7, 0xc19bf174,
    0xe49b69c1, 0xefbe4786, 0x0fc19dc6, 0x240ca1cc, 0x2de92c6f, 0x4a7484aa, 0x5cb0a9dc, 0x76f988da,
    0x983e5152, 0xa831c66d, 0xb00327c8, 0xbf597fc7, 0xc6e00bf3, 0xd5a79147, 0x06ca6351, 0x14292967,
    0x27b70a85, 0x2e1b2138, 0x4d2c6dfc, 0x53380d13, 0x650a7354, 0x766a0abb, 0x81c2c92e, 0x92722c85,
    0xa2bfe8a1, 0xa81a664b, 0xc24b8b70, 0xc76c51a3, 0xd192e819, 0xd6990624, 0xf40e3585, 0x106aa070,
    0x19a4c116, 0x1e376c08, 0x2748774c, 0x34b0bcb5, 0x391c0cb3, 0x4ed8aa4a, 0x5b9cca4f, 0x682e6ff3,
    0x748f82ee, 0x78a5636f, 0x84c87814, 0x8cc70208, 0x90befffa, 0xa4506ceb, 0xbef9a3f7, 0xc67178f2,
];

const H0: [u32; 8] = [
    0x6a09e667, 0xbb67ae85, 0x3c6ef372, 0xa54ff53a, 0x510e527f, 0x9b05688c, 0x1f83d9ab, 0x5be0cd19,
];

fn ch(x: u32, y: u32, z: u32) -> u32
    ensures { result ≡ spec.Ch x y z }
{
    (x & y) ^ (!x & z)
}

fn maj(x: u32, y: u32, z: u32) -> u32
    ensures { result ≡ spec.Maj x y z }
{
    (x & y) ^ (x & z) ^ (y & z)
}

fn big_sigma0(x: u32) -> u32
    ensures { result ≡ spec.Σ₀ x }
{
    x.rotate_right(2) ^ x.rotate_right(13) ^ x.rotate_right(22)
}

fn big_sigma1(x: u32) -> u32
    ensures { result ≡ spec.Σ₁ x }
{
    x.rotate_right(6) ^ x.rotate_right(11) ^ x.rotate_right(25)
}

fn small_sigma0(x: u32) -> u32
    ensures { result ≡ spec.σ₀ x }
{
    x.rotate_right(7) ^ x.rotate_right(18) ^ (x >> 3)
}

fn small_sigma1(x: u32) -> u32
    ensures { result ≡ spec.σ₁ x }
{
    x.rotate_right(17) ^ x.rotate_right(19) ^ (x >> 10)
}

// T1 of a round.
fn t1(e: u32, f: u32, g: u32, h: u32, k: u32, w: u32) -> u32
    ensures { result ≡ spec.T₁ e f g h k w }
{
    h.wrapping_add(big_sigma1(e))
        .wrapping_add(ch(e, f, g))
        .wrapping_add(k)
        .wrapping_add(w)
}

// T2 of a round.
fn t2(a: u32, b: u32, c: u32) -> u32
    ensures { result ≡ spec.T₂ a b c }
{
    big_sigma0(a).wrapping_add(maj(a, b, c))
}

// The working variables after a round in which they were a to h.
fn turned(
    a: u32,
    b: u32,
    c: u32,
    d: u32,
    e: u32,
    f: u32,
    g: u32,
    h: u32,
    k: u32,
    w: u32,
) -> [u32; 8]
    ensures { result ≡ spec.turned a b c d e f g h k w }
{
    let x = t1(e, f, g, h, k, w);
    [
        x.wrapping_add(t2(a, b, c)),
        a,
        b,
        c,
        d.wrapping_add(x),
        e,
        f,
        g,
    ]
}

fn constant(t: usize) -> u32
    requires { t < 64 }
    ensures { result ≡ spec.K ! t }
{
    K[t]
}

// Round t of a block whose schedule is w.
fn round(v: [u32; 8], w: &[u32; 64], t: usize) -> [u32; 8]
    requires { t < 64 }
    ensures { result ≡ spec.round v (spec.K ! t) (w.now ! t) }
{
    turned(
        v[0],
        v[1],
        v[2],
        v[3],
        v[4],
        v[5],
        v[6],
        v[7],
        constant(t),
        w[t],
    )
}

// Eight rounds in one piece, since then no working variable is moved.
fn eight_rounds(v: [u32; 8], w: &[u32; 64], t: usize) -> [u32; 8]
    requires { t + 8 ≤ 64 }
    ensures { (h : List ℕ) → v ≡ spec.rounds w.now h t → result ≡ spec.rounds w.now h (t + 8) }
{
    let v1 = round(v, w, t);
    let v2 = round(v1, w, t + 1);
    let v3 = round(v2, w, t + 2);
    let v4 = round(v3, w, t + 3);
    let v5 = round(v4, w, t + 4);
    let v6 = round(v5, w, t + 5);
    let v7 = round(v6, w, t + 6);
    round(v7, w, t + 7)
}

fn rounds(h: [u32; 8], w: &[u32; 64]) -> [u32; 8]
    ensures { result ≡ spec.rounds w.now h 64 }
{
    let mut v = h;
    for i in 0..8 {
        let next = eight_rounds(v, w, 8 * i);
        v = next;
    }
    v
}

// The word of the four bytes at a place of s.
fn word(s: &[u8], at: usize) -> u32
    requires { at + 4 ≤ length s.now }
    ensures { result ≡ spec.word s.now at }
{
    u32::from_be_bytes([s[at], s[at + 1], s[at + 2], s[at + 3]])
}

// The words of the block at a place of s, with room for the schedule's other words.
fn block(s: &[u8], at: usize) -> [u32; 64]
    requires { at + 64 ≤ length s.now }
    ensures { take 16 result ≡ spec.words s.now at 16 }
{
    let mut m = [0u32; 64];
    for j in 0..16 {
        m[j] = word(s, at + 4 * j);
    }
    m
}

// The word of a schedule that follows from four earlier ones.
fn scheduled(w2: u32, w7: u32, w15: u32, w16: u32) -> u32
    ensures { result ≡ spec.scheduled w2 w7 w15 w16 }
{
    small_sigma1(w2)
        .wrapping_add(w7)
        .wrapping_add(small_sigma0(w15))
        .wrapping_add(w16)
}

// Word t of a schedule whose words before it are in w.
fn extend(w: &mut [u32; 64], t: usize)
    requires { (16 ≤ t) × (t < 64) × (length w.old ≡ 64) }
    ensures { (take (t + 1) w.new ≡ spec.extended (take t w.old) t) × (length w.new ≡ 64) }
{
    w[t] = scheduled(w[t - 2], w[t - 7], w[t - 15], w[t - 16]);
}

fn schedule(m: [u32; 64]) -> [u32; 64]
    ensures { result ≡ spec.schedule (take 16 m) 48 }
{
    let mut w = m;
    // Four words a turn, which takes less time than one.
    for i in 4..16 {
        extend(&mut w, 4 * i);
        extend(&mut w, 4 * i + 1);
        extend(&mut w, 4 * i + 2);
        extend(&mut w, 4 * i + 3);
    }
    w
}

fn compress(h: [u32; 8], m: [u32; 64]) -> [u32; 8]
    ensures { result ≡ spec.compress h (take 16 m) }
{
    let w = schedule(m);
    let v = rounds(h, &w);
    [
        v[0].wrapping_add(h[0]),
        v[1].wrapping_add(h[1]),
        v[2].wrapping_add(h[2]),
        v[3].wrapping_add(h[3]),
        v[4].wrapping_add(h[4]),
        v[5].wrapping_add(h[5]),
        v[6].wrapping_add(h[6]),
        v[7].wrapping_add(h[7]),
    ]
}

// The hash value after the whole blocks of s, from the hash value h on.
fn blocks(h: [u32; 8], s: &[u8]) -> [u32; 8]
    ensures { result ≡ spec.hash h s.now (length s.now / 64) }
{
    let mut g = h;
    for i in 0..s.len() / 64 {
        let next = compress(g, block(s, 64 * i));
        g = next;
    }
    g
}

// How many bytes of a message of n bytes and its padding follow the message's whole blocks.
fn last_len(n: u64) -> usize
    ensures { result ≡ n % 64 + length (spec.padding n) }
{
    if n % 64 < 56 { 64 } else { 128 }
}

// What follows the whole blocks of s, and zeros.
fn rest(s: &[u8]) -> [u8; 128]
    ensures { (j : ℕ) → result ! j ≡ s.now ! (length s.now / 64 * 64 + j) }
{
    let mut b = [0u8; 128];
    let len = s.len() % 64;
    b[..len].copy_from_slice(&s[s.len() - len..]);
    b
}

// The `end` bytes, one block or two, that follow the whole blocks of s, the last part of a message of n bytes.
fn last(s: &[u8], n: u64, end: usize) -> [u8; 128]
    requires { (end ≡ length s.now % 64 + length (spec.padding n)) × (end ≤ 128) }
    ensures { (j : ℕ) → j < end → result ! j ≡ (s.now ++ spec.padding n) ! (length s.now / 64 * 64 + j) }
{
    let mut b = rest(s);
    // A one bit and seven zeros.
    b[s.len() % 64] = 128;
    b[end - 8..end].copy_from_slice(&(n << 3).to_be_bytes());
    b
}

fn joined(h: [u32; 8]) -> [u8; 32]
    ensures { result ≡ spec.joined h }
{
    let mut b = [0u8; 32];
    for i in 0..8 {
        b[4 * i..4 * i + 4].copy_from_slice(&h[i].to_be_bytes());
    }
    b
}

// The digest of whole blocks and what follows them.
fn digest_both(front: &[u8], s: &[u8]) -> [u8; 32]
    requires { length front.now % 64 ≡ 0 }
    ensures { result ≡ spec.sha256 (front.now ++ s.now) }
{
    let h = blocks(blocks(H0, front), s);
    // A sum that wraps changes nothing: the padding has the length modulo 2^64.
    let n = (front.len() as u64).wrapping_add(s.len() as u64);
    let end = last_len(n);
    let b = last(s, n, end);
    joined(blocks(h, &b[..end]))
}

pub fn digest(s: &[u8]) -> [u8; 32]
    ensures { result ≡ spec.sha256 s.now }
{
    // No block lies before it.
    digest_both(&s[..0], s)
}

// The digest of a first block and what follows it.
pub fn digest_after(first: [u8; 64], s: &[u8]) -> [u8; 32]
    ensures { result ≡ spec.sha256 (first ++ s.now) }
{
    digest_both(&first, s)
}
