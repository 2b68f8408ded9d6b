ghost use Rattle.std.specs.Prelude.{◌≡◌, true};
ghost use Rattle.samples.specs.Kinds.{Kind, KindLaws, DeltaLaws};

// A kind of sample: values with a neutral one, a joining, and a taking that undoes it.
pub trait Sample: Copy {
    ghost kind: { Kind Self };

    fn nothing() -> Self
        ensures { result ≡ kind.nothing };

    // The sample with another joined to it.
    fn join(self, other: Self) -> Self
        ensures { result ≡ kind.joined self other };

    // The sample with another taken from it.
    fn take(self, other: Self) -> Self
        ensures { result ≡ kind.taken self other };

    // The value itself. A value in hand is one that the type can hold, which a proof learns by this call; it compiles to nothing.
    fn known(self) -> Self
        ensures same { result ≡ self }
        ensures held { kind.held self ≡ true };

    ghost lawful: { KindLaws kind };
}

// A kind whose samples may be joined in any order, as the differences of two tiles are.
pub trait DeltaSample: Sample {
    ghost additive: { DeltaLaws Self.Sample.kind };
}
