// Parcels in the order in which they were sent, where every node is honest.
ghost use Rattle.std.specs.Prelude.{◌<◌, length};
ghost use Rattle.runs.specs.Happens.{PostRoomy};
ghost use Rattle.runs.specs.Oldest.{Oldest, Fronts};

use crate::answer::{EventEnd, Happened};
use crate::event::{bring, carry, deliver, hand, ready};
use crate::parcels::{HEADING, Key, Kind, key_at};
use parties::{Measures, Refusal};

// The key of the parcel in front.
fn front(s: Measures, post: &[u8], used: usize) -> Result<Key, Refusal>
    requires { PostRoomy s (length post.now) used × (0 < used) }
    ensures { Fronts s post.now used result }
{
    if used < HEADING {
        return Err(Refusal::Form);
    }
    key_at(s, post, 0)
}

// The oldest parcel of all is carried to where it goes.
pub fn oldest(
    s: Measures,
    memory: &mut [u8],
    room: &mut [u8],
    out: &mut [u8],
    post: &mut [u8],
    used: usize,
) -> EventEnd
    ensures { Oldest s used
        (record { memory = memory.old; post = post.old; room = room.old; out = out.old })
        (record { memory = memory.new; post = post.new; room = room.new; out = out.new }) result }
{
    if let Err(x) = ready(s, post.len(), used) {
        return EventEnd {
            used,
            what: Happened::Refused(x),
        };
    }
    if used == 0 {
        return EventEnd {
            used,
            what: Happened::Nothing,
        };
    }
    let key = match front(s, post, used) {
        Ok(key) => key,
        Err(x) => {
            return EventEnd {
                used,
                what: Happened::Refused(x),
            };
        }
    };
    let c = key.client;
    let i = key.node;
    match key.kind {
        Kind::Call => carry(s, c, memory, room, post, used),
        Kind::Return => hand(s, c, memory, room, post, used),
        Kind::ToNode => bring(s, 0, c, i, memory, room, post, used),
        Kind::ToClient => deliver(s, c, i, memory, room, out, post, used),
    }
}
