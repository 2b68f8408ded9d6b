ghost use Rattle.samples.specs.Numbers.{numbers};
ghost use Rattle.samples.specs.NumberLaws.{number_lawful, number_additive};

use crate::sample::{DeltaSample, Sample};

// A number: joined by the sum and taken by the difference, modulo 2^32.
impl Sample for i32 {
    ghost kind = { numbers };

    ghost lawful = { number_lawful };

    fn nothing() -> i32 {
        0
    }

    fn join(self, other: i32) -> i32 {
        self.wrapping_add(other)
    }

    fn take(self, other: i32) -> i32 {
        self.wrapping_sub(other)
    }

    fn known(self) -> i32 {
        self
    }
}

impl DeltaSample for i32 {
    ghost additive = { number_additive };
}
