// The papers' number of a refusal.
ghost use Rattle.std.specs.Prelude.{◌≡◌};
ghost use Rattle.parties.specs.records.Answer.{number as number_of};

use crate::Refusal;

impl Refusal {
    pub fn number(self) -> usize
        ensures { result ≡ number_of self }
    {
        self as usize
    }
}
