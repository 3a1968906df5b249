// A version in five bytes.
ghost use Rattle.std.specs.Prelude.{◌≡◌, ◌+◌, ◌≤◌, length};
ghost use Rattle.parties.specs.protocol.Pointer.{write_version};
ghost use Rattle.parties.specs.protocol.Reading.{same_version};
ghost use Rattle.parties.specs.records.Places.{version_at, proper_at, version_alone};

use crate::records::bytes::u32_at;
use crate::{Measures, Sequence, Version};

// Neither is below the other.
pub(crate) fn same_version(a: Version, b: Version) -> bool
    ensures { result ≡ same_version a b }
{
    a == b
}

// The version in the five bytes at a place.
pub(crate) fn version_at(t: &[u8], at: usize) -> Version
    requires { at + 5 ≤ length t.now }
    ensures { result ≡ version_at t.now at }
{
    Version {
        sequence: Sequence(u32_at(t, at)),
        client: t[at + 4],
    }
}

// The five bytes of a version.
pub(crate) fn version_bytes(v: Version) -> [u8; 5]
    ensures { result ≡ write_version v }
{
    let [a, b, c, d] = v.sequence.0.to_be_bytes();
    [a, b, c, d, v.client]
}

// A version that a message or a place names is proper.
pub(crate) fn proper_at(s: Measures, b: &[u8], at: usize) -> bool
    requires { at + 5 ≤ length b.now }
    ensures { result ≡ proper_at s b.now at }
{
    version_at(b, at).proper(s)
}

// A version alone.
pub(crate) fn version_alone(s: Measures, b: &[u8]) -> bool
    ensures { result ≡ version_alone s b.now }
{
    b.len() == 6 && proper_at(s, b, 1)
}
