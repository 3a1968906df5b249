// The steps of a client's record: where its operation stands, by what it waits for. They are bytes and no enum: a phase that a caller
// hands over, also from C, may have any byte, and `event`, `record` and `turn` answer one above 7 with the refusal of the form.
ghost use Rattle.std.specs.Prelude.{◌≡◌};
ghost use Rattle.parties.specs.client.Step.{phase_after};

use crate::{ClientAnswer, Phase};

pub(crate) const IDLE: u8 = 0;

// A deposit: its first scan, acknowledgements of its stores, its update, its second scan.
pub(crate) const SCANNING: u8 = 1;

pub(crate) const STORING: u8 = 2;

pub(crate) const UPDATING: u8 = 3;

pub(crate) const FREEZING: u8 = 4;

// A reading: its update, its scan, replies.
pub(crate) const RAISING: u8 = 5;

pub(crate) const PICKING: u8 = 6;

pub(crate) const FETCHING: u8 = 7;

// Where the rows of a scan or a message lead: the answer says which step comes next.
pub(crate) fn phase_after(p: Phase, a: ClientAnswer) -> Phase
    ensures { result ≡ phase_after p a }
{
    let step = match a {
        ClientAnswer::Waits | ClientAnswer::Scan => p.step,
        ClientAnswer::Update(_) => UPDATING,
        ClientAnswer::Stores(_, _) => STORING,
        ClientAnswer::Requests(_, _) => FETCHING,
        _ => IDLE,
    };
    Phase { step, ..p }
}
