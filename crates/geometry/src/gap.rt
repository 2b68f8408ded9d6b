// A gap joins two neighbouring points of one resolution: `from` and the next point in the direction.
use crate::direction::Direction;
use crate::point::Point;

#[derive(Clone, Copy)]
pub struct Gap {
    pub resolution: u32,
    pub direction: Direction,
    pub from: Point,
}
