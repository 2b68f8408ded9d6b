// Break sources: a frame and a fixed set of broken gaps.
#![tactic(auto)]

pub mod flags;
pub mod labels;
pub mod run;
pub mod source;
pub mod wholeness;
