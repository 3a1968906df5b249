// Lanes of a room: sixteen bytes of it, or fewer at its end, read and written at once.
ghost use Rattle.std.specs.Prelude.{◌≡◌, ℕ, ◌+◌, ◌<◌, ◌≤◌, length, slice_index};
ghost use Rattle.std.proofs.Math.Seq.{paste};

// The m lanes at a place of the room: one instruction where a caller's m is the number 16.
#[inline(always)]
pub fn load(room: &[u8], at: usize, m: usize) -> [u8; 16]
    requires { (at + m ≤ length room.now) × (m ≤ 16) }
    ensures { (l : ℕ) → l < m → slice_index result l ≡ slice_index room.now (at + l) }
{
    let mut v = [0u8; 16];
    v[..m].copy_from_slice(&room[at..at + m]);
    v
}

// A whole block goes apart, since there the store is one instruction.
#[inline(always)]
pub fn store(room: &mut [u8], at: usize, m: usize, v: [u8; 16])
    requires { (at + m ≤ length room.old) × (m ≤ 16) }
    ensures { room.new ≡ paste room.old at v m }
{
    if m == 16 {
        room[at..at + 16].copy_from_slice(&v);
    } else {
        room[at..at + m].copy_from_slice(&v[..m]);
    }
}
