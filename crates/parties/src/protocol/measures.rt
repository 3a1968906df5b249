// Which measures pass.
ghost use Rattle.std.specs.Prelude.{◌≡◌, true};
ghost use Rattle.parties.specs.protocol.Measures.{passes};

use crate::Measures;

// Measures that pass: what is laid out by measures goes by such.
#[derive(Clone, Copy)]
pub struct Passed {
    pub measures: Measures,
    ghost pass: { passes measures ≡ true },
}

impl Measures {
    // Each number is held to its own bound before two are added or multiplied.
    pub fn pass(self) -> bool
        ensures { result ≡ passes self }
    {
        if self.m < 1 {
            return false;
        }
        if 8 < self.m {
            return false;
        }
        if self.n < 1 {
            return false;
        }
        if 16 < self.n {
            return false;
        }
        if self.k < 1 {
            return false;
        }
        if self.n < self.k {
            return false;
        }
        if self.n < self.t {
            return false;
        }
        if self.n < 2 * self.t + self.k {
            return false;
        }
        if self.f < 1 {
            return false;
        }
        if 4096 < self.f {
            return false;
        }
        4 <= self.k * self.f
    }
}
