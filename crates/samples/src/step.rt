ghost use Rattle.std.specs.Prelude.{◌≡◌};
ghost use Rattle.samples.specs.Steps.{Rule, StepLaws};

use crate::sample::Sample;

// A step of lifting: from two ends, each present or absent, a forecast and a correction of the sample between them.
// (The literature calls them "predict" and "update".) The rule is a function of the step's own value, so that a step may carry constants.
pub trait Step {
    type Sample: Sample;

    ghost rule: { Self → Rule Self.Sample };

    fn forecast(&self, a: Option<Self::Sample>, b: Option<Self::Sample>) -> Self::Sample
        ensures { result ≡ (rule self.now).forecast a b };

    fn correction(&self, a: Option<Self::Sample>, b: Option<Self::Sample>) -> Self::Sample
        ensures { result ≡ (rule self.now).correction a b };

    ghost lawful: { (s : Self) → StepLaws Self.Sample.Sample.kind (rule s) };
}
