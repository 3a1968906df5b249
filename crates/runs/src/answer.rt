// What an event of a run answers.
use parties::{ClientAnswer, Refusal};

#[derive(Clone, Copy)]
pub enum Happened {
    // The event is not carried out.
    Refused(Refusal),
    // Nothing is under way there, or an honest node would have to lie.
    Nothing,
    // The message went to a dishonest node.
    Taken,
    ByClient(Result<ClientAnswer, Refusal>),
    ByServer(Result<usize, Refusal>),
}

#[derive(Clone, Copy)]
pub struct EventEnd {
    // How many bytes of parcels are under way after it.
    pub used: usize,
    pub what: Happened,
}
