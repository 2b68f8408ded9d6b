// The work on a plate's tiles: a tile's frame and samples, its way down to the bands and back, and its gaps.
#![tactic(auto)]

pub mod gaps;
pub mod range;
pub mod tally;
#[cfg(test)]
mod tests;
pub mod trip;
pub mod work;
