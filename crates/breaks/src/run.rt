// A run of points of one row: `first` and on to the right, `step` apart. Their gaps are asked for in the run's direction:
// along the row itself, or along the columns that the points stand on.
ghost use Rattle.std.specs.Prelude.{◌≡◌, ◌^◌, ◌≤◌, MatchOption};
ghost use Rattle.breaks.specs.Sources.{point_in, gap_from, gap_before};

use geometry::direction::Direction;
use geometry::gap::Gap;
use geometry::point::Point;

#[derive(Clone, Copy)]
pub struct Run {
    pub resolution: u32,
    pub direction: Direction,
    pub first: Point,
    pub step: u32,
}

impl Run {
    // The point at index k of the run; none where its column passes what a point can have.
    pub fn point(&self, k: usize) -> Option<Point>
        ensures { MatchOption result (2 ^ 32 ≤ (point_in self.now k).x) (λ p. p ≡ point_in self.now k) }
    {
        let far = k.checked_mul(self.step as usize)?;
        let x = far.checked_add(self.first.x as usize)?;
        Some(Point {
            x: u32::try_from(x).ok()?,
            y: self.first.y,
        })
    }

    // The gap after a point of the run, in the run's direction.
    pub fn gap_after(&self, p: Point) -> Gap
        ensures { result ≡ gap_from self.now.resolution self.now.direction p }
    {
        Gap {
            resolution: self.resolution,
            direction: self.direction,
            from: p,
        }
    }

    // The gap before a point of the run, in the run's direction; none before coordinate 0.
    pub fn gap_before(&self, p: Point) -> Option<Gap>
        ensures { result ≡ gap_before self.now.resolution self.now.direction p }
    {
        let from = match self.direction {
            Direction::Row => Point {
                x: p.x.checked_sub(1)?,
                y: p.y,
            },
            Direction::Column => Point {
                x: p.x,
                y: p.y.checked_sub(1)?,
            },
        };
        Some(self.gap_after(from))
    }
}
