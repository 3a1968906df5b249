// Versions that stand in order, one every z bytes from a place on: those of a node's pieces, those of a free list.
ghost use Rattle.std.specs.Prelude.{◌≡◌, not, ◌&&◌, ◌+◌, ◌*◌, ◌≤◌, ltb, length};
ghost use Rattle.parties.specs.protocol.Version.{below};
ghost use Rattle.parties.specs.records.Places.{version_at, rank};

use crate::Version;
use crate::records::version::version_at;

// How many of them are below v.
pub(crate) fn seek(z: usize, t: &[u8], from: usize, count: usize, v: Version) -> usize
    requires { (5 ≤ z) × (from + count * z ≤ length t.now) }
    ensures { result ≡ rank z t.now v from count }
{
    for j in 0..count {
        if !version_at(t, from + j * z).below(v) {
            return j;
        }
    }
    count
}

// Place j is one of them, and its version is not above v.
pub(crate) fn stands(z: usize, t: &[u8], from: usize, count: usize, j: usize, v: Version) -> bool
    requires { (5 ≤ z) × (from + count * z ≤ length t.now) }
    ensures { result ≡ (ltb j count && not (below v (version_at t.now (from + j * z)))) }
{
    j < count && !v.below(version_at(t, from + j * z))
}
