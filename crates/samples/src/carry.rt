ghost use Rattle.std.specs.Prelude.{◌≡◌};
ghost use Rattle.samples.specs.Carries.{carries};
ghost use Rattle.samples.specs.CarryLaws.{carry_lawful};

use crate::sample::Sample;
use crate::step::Step;
use std::marker::PhantomData;

// The carry step: the forecast is the left or upper end, failing that the other, else nothing; the correction is nothing.
#[derive_where(Clone, Copy)]
pub struct CarryStep<K> {
    kind: PhantomData<K>,
}

impl<K> CarryStep<K> {
    // The one value of the type.
    pub fn new() -> CarryStep<K>
        ensures { (other : CarryStep K) → result ≡ other }
    {
        CarryStep { kind: PhantomData }
    }
}

impl<K: Sample> Step for CarryStep<K> {
    type Sample = K;

    ghost rule = { λ _. carries K.Sample.kind };

    ghost lawful = { λ _. carry_lawful K.Sample.kind K.Sample.lawful };

    fn forecast(&self, a: Option<K>, b: Option<K>) -> K
        ensures { result ≡ (carries K.Sample.kind).forecast a b }
    {
        a.unwrap_or_else(|| b.unwrap_or_else(|| K::nothing()))
    }

    fn correction(&self, _a: Option<K>, _b: Option<K>) -> K
        ensures { result ≡ K.Sample.kind.nothing }
    {
        K::nothing()
    }
}
