// Frames of tiles, their resolutions, points and gaps, the place of a sample in a plane, and the refusals.
#![tactic(auto)]

pub mod corners;
pub mod direction;
pub mod frame;
pub mod gap;
pub mod lattice;
pub mod point;
pub mod refusal;
