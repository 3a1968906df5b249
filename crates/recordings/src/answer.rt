// Why rearranging refuses.
ghost use Rattle.std.specs.Prelude.{◌≡◌};
ghost use Rattle.recordings.specs.Answer.{number as number_of};

#[derive(Debug, Clone, Copy, PartialEq, Eq)]
pub enum Refusal {
    Short,
    Width,
}

impl Refusal {
    // Document 02's number.
    pub fn number(self) -> usize
        ensures { result ≡ number_of self }
    {
        match self {
            Refusal::Short => 2,
            Refusal::Width => 15,
        }
    }
}
