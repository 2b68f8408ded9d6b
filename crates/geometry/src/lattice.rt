// The points of a resolution and where their samples stand in a plane: point (left + i, top + j), for i below columns and
// j below rows, has its sample at the place first + j * down + i * across.
#[derive(Clone, Copy, Default)]
pub struct Lattice {
    pub left: u32,
    pub top: u32,
    pub columns: u32,
    pub rows: u32,
    pub first: usize,
    pub across: usize,
    pub down: usize,
}
