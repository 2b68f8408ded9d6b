ghost use Rattle.std.specs.Prelude.{◌≡◌};
ghost use Rattle.samples.specs.Means.{half as half_of, quarter as quarter_of, means, flow_means};
ghost use Rattle.samples.specs.MeanLaws.{mean_lawful, flow_mean_lawful};

use crate::flow::Flow;
use crate::step::Step;

// The mean step of numbers: the forecast is half the sum of the two ends, the correction a quarter of that sum and 2, each rounded down.
// A single end counts for both, and nothing comes of none.
#[derive(Clone, Copy)]
pub struct MeanStep;

// floor((a + b) / 2), in 32 bits: the halves, and 1 where both drop a bit.
fn half(a: i32, b: i32) -> i32
    ensures { result ≡ half_of a b }
{
    (a >> 1) + (b >> 1) + (a & b & 1)
}

// floor((a + b + 2) / 4), in 32 bits: the quarters, and what the two bits that each drops add to them.
fn quarter(a: i32, b: i32) -> i32
    ensures { result ≡ quarter_of a b }
{
    (a >> 2) + (b >> 2) + (((a & 3) + (b & 3) + 2) >> 2)
}

impl Step for MeanStep {
    type Sample = i32;

    ghost rule = { λ _. means };

    ghost lawful = { λ _. mean_lawful };

    fn forecast(&self, a: Option<i32>, b: Option<i32>) -> i32
        ensures { result ≡ means.forecast a b }
    {
        half(a.or(b).unwrap_or(0), b.or(a).unwrap_or(0))
    }

    fn correction(&self, a: Option<i32>, b: Option<i32>) -> i32
        ensures { result ≡ means.correction a b }
    {
        quarter(a.or(b).unwrap_or(0), b.or(a).unwrap_or(0))
    }
}

// The mean step of flows: that of numbers on each part.
#[derive(Clone, Copy)]
pub struct FlowMeanStep;

impl Step for FlowMeanStep {
    type Sample = Flow;

    ghost rule = { λ _. flow_means };

    ghost lawful = { λ _. flow_mean_lawful };

    fn forecast(&self, a: Option<Flow>, b: Option<Flow>) -> Flow
        ensures { result ≡ flow_means.forecast a b }
    {
        Flow {
            dx: MeanStep.forecast(a.map(|e| e.dx), b.map(|e| e.dx)),
            dy: MeanStep.forecast(a.map(|e| e.dy), b.map(|e| e.dy)),
        }
    }

    fn correction(&self, a: Option<Flow>, b: Option<Flow>) -> Flow
        ensures { result ≡ flow_means.correction a b }
    {
        Flow {
            dx: MeanStep.correction(a.map(|e| e.dx), b.map(|e| e.dx)),
            dy: MeanStep.correction(a.map(|e| e.dy), b.map(|e| e.dy)),
        }
    }
}
