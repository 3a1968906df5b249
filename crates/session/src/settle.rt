// An operation from its start to its end, with each message delivered at once: one queue, oldest first.
ghost use Rattle.std.specs.Prelude.{◌≡◌, cond, ℕ, ◌+◌, ltb};
ghost use Rattle.session.specs.Settle.{Desk, lend, desk, Hands, Settles};

use crate::say::say;
use parties::Measures;
use runs::answer::EventEnd;
use runs::oldest::oldest;

#[derive(Clone, Copy, Debug, PartialEq, Eq)]
pub struct Settled {
    // How many bytes of parcels are still under way: none after an operation.
    pub used: usize,
    // The length of the line.
    pub len: usize,
}

// An answer with no line leaves the one before.
fn latest(n: usize, len: usize) -> usize
    ensures { result ≡ cond (ltb 0 n) n len }
{
    if n == 0 { len } else { n }
}

// The oldest parcel is handed over.
fn hand_over(
    s: Measures,
    c: usize,
    x: Settled,
    memory: &mut [u8],
    room: &mut [u8],
    out: &mut [u8],
    post: &mut [u8],
    text: &mut [u8],
) -> Settled
    ensures { (start : Desk) (n : ℕ) → Hands s c start n (desk (lend memory.old post.old room.old out.old) x.used text.old x.len)
        → Hands s c start (n + 1) (desk (lend memory.new post.new room.new out.new) result.used text.new result.len) }
{
    let result = oldest(s, memory, room, out, post, x.used);
    let what = result.what;
    let n = say(c, what, out, text);
    let len = latest(n, x.len);
    Settled {
        used: result.used,
        len,
    }
}

// More parcels than an operation has.
const MOST_PARCELS: usize = 128;

// By the algorithms a deposit takes 7 events and 4 for each node, 71 at most, of which 70 hand over a parcel; a reading 5 and at most 2 for each node.
pub fn settle(
    s: Measures,
    c: usize,
    start: EventEnd,
    memory: &mut [u8],
    room: &mut [u8],
    out: &mut [u8],
    post: &mut [u8],
    text: &mut [u8],
) -> Settled
    ensures { Settles s c start (lend memory.old post.old room.old out.old) text.old
        (lend memory.new post.new room.new out.new) text.new result }
{
    let first = start.what;
    let len = say(c, first, out, text);
    let mut x = Settled {
        used: start.used,
        len,
    };
    for turn in 0..MOST_PARCELS {
        if x.used == 0 {
            return x;
        }
        x = hand_over(s, c, x, memory, room, out, post, text);
    }
    x
}
