// How many bytes lent slices need, by the measures alone; 0 where these do not pass.
ghost use Rattle.std.specs.Prelude.{◌≡◌};
ghost use Rattle.parties.specs.protocol.DirectoryEvents.{directory_size};
ghost use Rattle.parties.specs.protocol.NodeEvents.{table_size};
ghost use Rattle.parties.specs.protocol.Client.{client_size};
ghost use Rattle.parties.specs.protocol.ClientEvents.{room_size};
ghost use Rattle.parties.specs.Sizes.{sized};

use crate::Measures;
use crate::client::form::area_size;
use crate::client::gate::room_size;
use crate::node::table_size;
use crate::protocol::measures::Passed;
use crate::records::form::row_size;

// The directory's table.
pub fn directory(s: Measures) -> usize
    ensures { result ≡ sized s (directory_size s) }
{
    if !s.pass() {
        return 0;
    }
    let s = Passed { measures: s };
    let row = row_size(s);
    s.measures.m * row
}

// A node's table.
pub fn table(s: Measures) -> usize
    ensures { result ≡ sized s (table_size s) }
{
    if !s.pass() {
        return 0;
    }
    let s = Passed { measures: s };
    table_size(s)
}

// A client's record: its phase and its area.
pub fn record(s: Measures) -> usize
    ensures { result ≡ sized s (client_size s) }
{
    if !s.pass() {
        return 0;
    }
    let s = Passed { measures: s };
    let area = area_size(s);
    5 + area
}

// The room of a client's events.
pub fn room(s: Measures) -> usize
    ensures { result ≡ sized s (room_size s) }
{
    if !s.pass() {
        return 0;
    }
    let s = Passed { measures: s };
    room_size(s)
}
