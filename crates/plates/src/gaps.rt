// Counting gaps.
ghost use Rattle.std.specs.Prelude.{◌≡◌, ◌+◌, ◌*◌, ◌≤◌};
ghost use Rattle.geometry.specs.Frames.{corners_of};
ghost use Rattle.plates.specs.Tallies.{gap_at, broken_from, broken_rows, starts, gap_tally};

use crate::tally::Tally;
use breaks::source::BreakSource;
use breaks::wholeness::Wholeness;
use geometry::direction::Direction;
use geometry::frame::Frame;
use geometry::gap::Gap;
use geometry::lattice::Lattice;
use geometry::point::Point;

// A block of points of a resolution, of so many columns from `left` on and so many rows from `top` on, and a direction: from each
// of its points a gap leads to the next point in the direction.
#[derive(Clone, Copy)]
struct Block {
    resolution: u32,
    direction: Direction,
    left: u32,
    top: u32,
    columns: u32,
    rows: u32,
    ghost right: { left + columns ≤ 1073741824 },
    ghost bottom: { top + rows ≤ 1073741824 },
    ghost narrow: { columns ≤ 512 },
    ghost low: { rows ≤ 512 },
}

impl Block {
    // How many gaps it has.
    #[tactic(auto, using(crate::proofs::Sums::product_few))]
    fn gaps(&self) -> u32
        ensures is { result ≡ self.now.columns * self.now.rows }
        ensures few { result ≤ 262144 }
    {
        self.columns * self.rows
    }

    // Whether the gap from a point is broken.
    fn is_broken<B: BreakSource>(&self, source: &B, from: Point) -> bool
        ensures { result ≡ B.BreakSource.broken source.now (gap_at self.now.resolution self.now.direction from.x from.y) }
    {
        let gap = Gap {
            resolution: self.resolution,
            direction: self.direction,
            from,
        };
        source.gap(gap) == Wholeness::Broken
    }

    // How many gaps from the points of row y are broken.
    fn broken_in_row<B: BreakSource>(&self, source: &B, y: u32) -> u32
        ensures is { result ≡ broken_from (B.BreakSource.broken source.now) self.now.resolution self.now.direction self.now.left y self.now.columns }
        ensures few { result ≤ 512 }
    {
        (self.left..self.left + self.columns)
            .filter(|x| self.is_broken(source, Point { x: *x, y }))
            .count() as u32
    }

    // How many gaps from all its points are broken.
    fn broken<B: BreakSource>(&self, source: &B) -> u32
        ensures is { result ≡ broken_rows (B.BreakSource.broken source.now) self.now.resolution self.now.direction self.now.left self.now.top self.now.columns self.now.rows }
        ensures few { result ≤ 262144 }
    {
        (self.top..self.top + self.rows)
            .map(|y| self.broken_in_row(source, y))
            .sum()
    }
}

// How many points of a resolution have a next one in a direction: so many columns of them, and so many rows.
fn starts_of(l: Lattice, d: Direction) -> (u32, u32)
    ensures { result ≡ starts l d }
{
    match d {
        Direction::Row => (l.columns.saturating_sub(1), l.rows),
        Direction::Column => (l.columns, l.rows.saturating_sub(1)),
    }
}

// The gaps of resolution r in a direction, for r from 1 on. (Resolution 0 has points and no gaps, and what is no gap counts as broken.)
pub fn count_gaps<B: BreakSource>(frame: &Frame, source: &B, r: u32, d: Direction) -> Tally
    ensures is { result ≡ gap_tally (corners_of frame.now) (B.BreakSource.broken source.now) r d }
    ensures few { (result.gaps ≤ 262144) × (result.broken ≤ 262144) }
{
    let l = frame.lattice(r);
    let (columns, rows) = starts_of(l, d);
    let block = Block {
        resolution: r,
        direction: d,
        left: l.left,
        top: l.top,
        columns,
        rows,
    };
    Tally {
        gaps: block.gaps(),
        broken: block.broken(source),
    }
}
