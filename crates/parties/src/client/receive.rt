// A message from a node, by what it tells.
ghost use Rattle.std.specs.Prelude.{◌≡◌, true, ◌-◌, ◌*◌, ◌≤◌, length};
ghost use Rattle.parties.specs.protocol.Measures.{passes};
ghost use Rattle.parties.specs.protocol.Client.{read_client};
ghost use Rattle.parties.specs.protocol.ClientEvents.{room_size};
ghost use Rattle.parties.specs.client.End.{step_end};
ghost use Rattle.parties.specs.client.Record.{record_of, is_some};
ghost use Rattle.parties.specs.client.Receive.{received_end};

use crate::client::acknowledge::acknowledge;
use crate::client::reply::{missing, reply};
use crate::client::tell::{Told, tell};
use crate::protocol::measures::Passed;
use crate::{ClientAnswer, Phase, Refusal};

// A message from node i to a client whose record reads.
pub fn receive(
    s: Passed,
    i: usize,
    p: Phase,
    area: &mut [u8],
    message: &[u8],
    room: &mut [u8],
    out: &mut [u8],
) -> Result<ClientAnswer, Refusal>
    requires { (1 ≤ i) × (i ≤ s.measures.n) × (is_some (read_client s.measures (record_of p area.old)) ≡ true) × (room_size s.measures ≤ length room.old)
        × (s.measures.k * s.measures.f - 4 ≤ length out.old) }
    ensures { step_end p result area.new room.new out.new ≡ received_end s.measures i (record_of p area.old) message.now room.old out.old }
{
    let told = tell(s.measures, message).ok_or(Refusal::Form)?;
    match told {
        Told::Stored(v) => Ok(acknowledge(s, i, v, p, area, room)),
        Told::Freed => Ok(ClientAnswer::Waits),
        Told::Reply(v) => reply(s, i, v, p, area, &message[7..], out),
        Told::Missing(v) => Ok(missing(s, i, v, p, area)),
    }
}
