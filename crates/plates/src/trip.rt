// A tile's way down through every stage and back up.
use crate::range::Range;

#[derive(Drop)]
pub struct Trip {
    // the range of the plane at each stage, from the highest to stage 0
    pub ranges: Vec<Range>,
    // the stage of the picture that came back
    pub stage: u32,
}
