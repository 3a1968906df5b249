// Messages to a node: their forms.
ghost use Rattle.std.specs.Prelude.{◌≡◌, ◌+◌, ◌*◌, ◌≤◌, length};
ghost use Rattle.parties.specs.protocol.Version.{no_version};
ghost use Rattle.parties.specs.node.ToNode.{listed_from, store_sound, free_sound};

use crate::Measures;
use crate::protocol::version::NONE;
use crate::records::version::{proper_at, version_at};

// A version, then a piece of 1 to F bytes.
pub fn store_sound(s: Measures, b: &[u8]) -> bool
    requires { s.f ≤ 4096 }
    ensures { result ≡ store_sound s b.now }
{
    if b.len() < 7 {
        return false;
    }
    if 6 + s.f < b.len() {
        return false;
    }
    proper_at(s, b, 1)
}

// Versions, each above the one before.
fn list_sound(s: Measures, b: &[u8], count: usize) -> bool
    requires { 1 + count * 5 ≤ length b.now }
    ensures { result ≡ listed_from s b.now no_version 1 count }
{
    let mut previous = NONE;
    for i in 0..count {
        let at = 1 + i * 5;
        if !proper_at(s, b, at) {
            return false;
        }
        let v = version_at(b, at);
        if !previous.below(v) {
            return false;
        }
        previous = v;
    }
    true
}

pub fn free_sound(s: Measures, b: &[u8]) -> bool
    requires { 1 ≤ length b.now }
    ensures { result ≡ free_sound s b.now }
{
    let len = b.len() - 1;
    len % 5 == 0 && list_sound(s, b, len / 5)
}
