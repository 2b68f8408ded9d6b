// Kinds of samples, and the steps by which lifting turns a tile of them into coarse samples and details.
#![tactic(auto)]

pub mod carry;
pub mod flow;
pub mod identifier;
pub mod mean;
pub mod number;
pub mod sample;
pub mod step;

pub use carry::CarryStep;
pub use flow::Flow;
pub use mean::{FlowMeanStep, MeanStep};
pub use sample::{DeltaSample, Sample};
pub use step::Step;

#[cfg(test)]
mod tests;
