// One stage of the transform down and up, for every sample kind, step and break source.
#![tactic(auto)]

pub mod sweep;

pub use sweep::stage::{all_known, down, up};
