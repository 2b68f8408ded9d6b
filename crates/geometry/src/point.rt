// A point of some resolution. Point (x, y) of a resolution d levels below the finest stands for the finest point (x * 2^d, y * 2^d).
#[derive(Clone, Copy, PartialEq, Eq, Debug)]
pub struct Point {
    pub x: u32,
    pub y: u32,
}
