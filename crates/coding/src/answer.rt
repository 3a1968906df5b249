// What splitting and joining answer when they refuse.
ghost use Rattle.std.specs.Prelude.{◌≡◌};
ghost use Rattle.coding.specs.Answer.{number};

#[derive(Clone, Copy, Debug, PartialEq, Eq)]
pub enum Refusal {
    Measures,
    Short,
    Number,
    Form,
    TooLong,
    TooFew,
}

impl Refusal {
    // Document 01's number.
    pub fn number(self) -> usize
        ensures { result ≡ number self }
    {
        match self {
            Refusal::Measures => 1,
            Refusal::Short => 2,
            Refusal::Number => 3,
            Refusal::Form => 4,
            Refusal::TooLong => 6,
            Refusal::TooFew => 9,
        }
    }
}
