// The pointer that a reading picks of a row.
ghost use Rattle.std.specs.Prelude.{◌≡◌};
ghost use Rattle.parties.specs.client.Pick.{pointer_part, picked_part};

use crate::ReadingIndex;
use crate::records::bytes::u16_at;
use crate::records::nodes::count;

// The front of a slice that its pointer takes, or all of the slice if it is shorter.
pub fn pointer_part(s: &[u8]) -> &[u8]
    ensures { result.now ≡ pointer_part s.now }
{
    if s.len() < 7 {
        return s;
    }
    let n = 7 + 32 * count(u16_at(s, 5));
    if s.len() < n {
        return s;
    }
    &s[..n]
}

// Of the written and the frozen field, each with a pointer at its front: the pointer's part of the written one if the index
// exceeds the frozen index, else of the frozen one.
pub fn picked<'a>(
    written: &'a [u8],
    frozen: &'a [u8],
    index: ReadingIndex,
    frozen_index: ReadingIndex,
) -> &'a [u8]
    ensures { result.now ≡ picked_part written.now frozen.now index frozen_index }
{
    if frozen_index.below(index) {
        pointer_part(written)
    } else {
        pointer_part(frozen)
    }
}
