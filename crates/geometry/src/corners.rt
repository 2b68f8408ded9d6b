// The numbers of a frame: x0, y0 is its first finest point, x1 and y1 are one past its last column and row,
// and levels is how many times the transform halves it. They may be any numbers; a `Frame` has them within their bounds.
#[derive(Clone, Copy, PartialEq, Eq, Debug)]
pub struct Corners {
    pub x0: u32,
    pub y0: u32,
    pub x1: u32,
    pub y1: u32,
    pub levels: u32,
}
