// A tile in either state: plain numbers, moved from state to state by begin and finish. The plane is lent at each call.
ghost use Rattle.std.specs.Prelude.{◌≤◌};

use geometry::frame::Frame;

pub mod calls;

// A tile that is a picture. Its stage is the highest one of its frame.
#[derive(Drop)]
pub struct Picture {
    frame: Frame,
}

// A tile that is bands, at a stage from 0 to the frame's levels.
#[derive(Drop)]
pub struct Bands {
    frame: Frame,
    stage: u32,
    ghost within: { stage ≤ frame.corners.levels },
}
