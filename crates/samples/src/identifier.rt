ghost use Rattle.samples.specs.Identifiers.{identifiers};
ghost use Rattle.samples.specs.IdentifierLaws.{identifier_lawful, identifier_additive};

use crate::sample::{DeltaSample, Sample};

// An identifier: joined and taken by exclusive or.
impl Sample for u32 {
    ghost kind = { identifiers };

    ghost lawful = { identifier_lawful };

    fn nothing() -> u32 {
        0
    }

    fn join(self, other: u32) -> u32 {
        self ^ other
    }

    // Exclusive or undoes itself.
    fn take(self, other: u32) -> u32 {
        self.join(other)
    }

    fn known(self) -> u32 {
        self
    }
}

impl DeltaSample for u32 {
    ghost additive = { identifier_additive };
}
