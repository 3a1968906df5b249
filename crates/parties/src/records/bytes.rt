// Bytes of a lent slice: numbers read and written, runs of zeros, copies and moves. Numbers of two bytes and of four are of two types; each
// function is one call of its type's, which a function over both could only name anew.
ghost use Rattle.std.specs.Prelude.{◌≡◌, ◌+◌, ◌-◌, ◌≤◌, length, take, drop, replicate, eqb};
ghost use Rattle.std.proofs.Math.Option.{some};
ghost use Rattle.std.proofs.Math.Seq.{paste};
ghost use Rattle.coding.specs.Nodes.{all};
ghost use Rattle.parties.specs.protocol.Format.{read_number, write_number};

// The number in the two bytes at a place.
pub(crate) fn u16_at(t: &[u8], at: usize) -> u16
    requires { at + 2 ≤ length t.now }
    ensures { read_number 2 (drop at t.now) ≡ some (record { value = result; rest = drop (at + 2) t.now }) }
{
    u16::from_be_bytes([t[at], t[at + 1]])
}

// The number in the four bytes at a place.
pub(crate) fn u32_at(t: &[u8], at: usize) -> u32
    requires { at + 4 ≤ length t.now }
    ensures { read_number 4 (drop at t.now) ≡ some (record { value = result; rest = drop (at + 4) t.now }) }
{
    u32::from_be_bytes([t[at], t[at + 1], t[at + 2], t[at + 3]])
}

// Bytes are all zero: no way out of the loop, so that it runs on many bytes at once.
fn zeros(s: &[u8]) -> bool
    ensures { result ≡ all (λ b. eqb b 0) s.now }
{
    s.iter().fold(0u8, |bits, b| bits | *b) == 0
}

// The bytes of a range are all zero: the way out is after a block, so that what is broken at its front is soon told.
pub(crate) fn zero_run(t: &[u8], from: usize, to: usize) -> bool
    requires { (from ≤ to) × (to ≤ length t.now) }
    ensures { result ≡ all (λ b. eqb b 0) (take (to - from) (drop from t.now)) }
{
    let (blocks, rest) = t[from..to].as_chunks::<256>();
    for block in blocks {
        if !zeros(block) {
            return false;
        }
    }
    zeros(rest)
}

// Zeros over a range.
pub(crate) fn clear(t: &mut [u8], from: usize, to: usize)
    requires { (from ≤ to) × (to ≤ length t.old) }
    ensures { t.new ≡ paste t.old from (replicate (to - from) 0) (to - from) }
{
    t[from..to].fill(0);
}

pub(crate) fn put_u16(t: &mut [u8], at: usize, v: u16)
    requires { at + 2 ≤ length t.old }
    ensures { t.new ≡ paste t.old at (write_number 2 v) 2 }
{
    copy(t, at, &v.to_be_bytes(), 0, 2);
}

pub(crate) fn put_u32(t: &mut [u8], at: usize, v: u32)
    requires { at + 4 ≤ length t.old }
    ensures { t.new ≡ paste t.old at (write_number 4 v) 4 }
{
    copy(t, at, &v.to_be_bytes(), 0, 4);
}

// Bytes of one slice over those of another.
pub(crate) fn copy(dst: &mut [u8], at: usize, src: &[u8], from: usize, n: usize)
    requires { (at + n ≤ length dst.old) × (from + n ≤ length src.now) }
    ensures { dst.new ≡ paste dst.old at (drop from src.now) n }
{
    dst[at..at + n].copy_from_slice(&src[from..from + n]);
}

// How many bytes are moved at once.
const BLOCK: usize = 512;

// A block to another place of its slice: it is read whole before any of it is written, and the compiler makes one move of it.
fn move_block(t: &mut [u8], from: usize, to: usize)
    requires { (from + 512 ≤ length t.old) × (to + 512 ≤ length t.old) }
    ensures { t.new ≡ paste t.old to (drop from t.old) 512 }
{
    let mut block = [0; BLOCK];
    block.copy_from_slice(&t[from..from + BLOCK]);
    copy(t, to, &block, 0, BLOCK);
}

// A range goes up within its slice, or down: by how much has no sign, so that the name says the direction. It goes block by block, up the
// last ones first, since of `copy_within` the compiler makes a loop that is slower. A `for` over the blocks would count them apart.
pub(crate) fn move_up(t: &mut [u8], from: usize, to: usize, by: usize)
    requires { (from ≤ to) × (to + by ≤ length t.old) }
    ensures { t.new ≡ paste t.old (from + by) (drop from t.old) (to - from) }
{
    let mut p = to;
    while BLOCK <= p - from {
        p -= BLOCK;
        move_block(t, p, p + by);
    }
    t.copy_within(from..p, from + by);
}

pub(crate) fn move_down(t: &mut [u8], from: usize, to: usize, by: usize)
    requires { (by ≤ from) × (from ≤ to) × (to ≤ length t.old) }
    ensures { t.new ≡ paste t.old (from - by) (drop from t.old) (to - from) }
{
    let mut p = from;
    while BLOCK <= to - p {
        move_block(t, p, p - by);
        p += BLOCK;
    }
    t.copy_within(p..to, p - by);
}
