// Each counter has its own comparison and successor: they are two types, so that one is never compared with the other, and a trait of both
// would be longer than the two lines that they have alike. The order is the derived one; `below` says that it is the protocol's.
ghost use Rattle.std.specs.Prelude.{◌≡◌, ◌+◌, ltb};
ghost use Rattle.parties.specs.protocol.Version.{below, is_no_version, next_sequence, next_index};
ghost use Rattle.parties.specs.protocol.Message.{proper_version};

use crate::{Measures, ReadingIndex, Sequence, Version};

// The version none.
const NO_SEQUENCE: Sequence = Sequence(0);

pub(crate) const NO_CLIENT: u8 = 255;

pub(crate) const NONE: Version = Version {
    sequence: NO_SEQUENCE,
    client: NO_CLIENT,
};

impl Sequence {
    pub fn below(self, other: Sequence) -> bool
        ensures { result ≡ ltb self.0 other.0 }
    {
        self < other
    }

    // None where the last number is in use.
    pub fn next(self) -> Option<Sequence>
        ensures { result ≡ next_sequence self }
    {
        self.0.checked_add(1).map(Sequence)
    }
}

impl ReadingIndex {
    pub fn below(self, other: ReadingIndex) -> bool
        ensures { result ≡ ltb self.0 other.0 }
    {
        self < other
    }

    // None where the last number is in use.
    pub fn next(self) -> Option<ReadingIndex>
        ensures { result ≡ next_index self }
    {
        self.0.checked_add(1).map(ReadingIndex)
    }
}

impl Version {
    pub fn below(self, other: Version) -> bool
        ensures { result ≡ below self other }
    {
        self < other
    }

    // A drawn version has a sequence of at least 1, and a client below m.
    pub fn proper(self, s: Measures) -> bool
        ensures { result ≡ proper_version s self }
    {
        NO_SEQUENCE < self.sequence && (self.client as usize) < s.m
    }

    pub fn is_none(self) -> bool
        ensures { result ≡ is_no_version self }
    {
        self == NONE
    }
}
