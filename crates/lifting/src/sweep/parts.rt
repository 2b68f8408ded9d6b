// What a sub-pass walks along.
ghost use Rattle.std.specs.Prelude.{◌<◌, ◌≤◌};

use geometry::lattice::Lattice;

// A row of a lattice: row j, counted from the lattice's corner.
#[derive(Clone, Copy)]
pub struct LatticeRow {
    pub lattice: Lattice,
    pub j: u32,
    ghost inside: { j < lattice.rows },
}

// Where the samples of a run of points stand in a plane: the first at `here`, the others `stride` apart,
// and the samples at their two ends `back` before them and `forth` after them.
#[derive(Clone, Copy)]
pub struct Track {
    pub here: usize,
    pub back: usize,
    pub forth: usize,
    pub stride: usize,
    ghost inside: { back ≤ here },
}
