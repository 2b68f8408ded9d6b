// How label maps are made, and what they answer.
ghost use Rattle.std.specs.Prelude.{◌≡◌, ◌≤◌, true};
ghost use Rattle.geometry.specs.Frames.{corners_of};
ghost use Rattle.geometry.specs.Places.{inside};
ghost use Rattle.geometry.specs.Refusals.{seen};
ghost use Rattle.breaks.specs.Labels.{map_of, map_answer, label, further, label_broken, label_outside};

use super::LabelMap;
use crate::source::BreakSource;
use crate::wholeness::Wholeness;
use geometry::corners::Corners;
use geometry::direction::Direction;
use geometry::frame::Frame;
use geometry::gap::Gap;
use geometry::point::Point;
use geometry::refusal::Refusal;

impl<'a> LabelMap<'a> {
    #[tactic(auto, unfolding(geometry::specs::Places::plane_length))]
    pub fn new(frame: Frame, labels: &'a [u16]) -> Result<LabelMap<'a>, Refusal>
        ensures { seen map_of result ≡ map_answer (corners_of frame) labels.now }
    {
        if labels.len() != frame.plane_length() {
            return Err(Refusal::WrongLength);
        }
        Ok(LabelMap { frame, labels })
    }

    // The label of a finest point of the frame. Its place is computed here, without the test of `Frame::place`, which is needless.
    fn label(&self, p: Point) -> u16
        requires { inside self.now.frame.corners p ≡ true }
        ensures { result ≡ label (map_of self.now) p }
    {
        let c = self.frame.corners();
        self.labels[(p.y - c.y0) as usize * (c.x1 - c.x0) as usize + (p.x - c.x0) as usize]
    }
}

// The point n further on in a direction.
fn further_on(d: Direction, p: Point, n: u32) -> Point
    requires right { (further d p n).x ≤ 1073741824 }
    requires bottom { (further d p n).y ≤ 1073741824 }
    ensures { result ≡ further d p n }
{
    match d {
        Direction::Row => Point { x: p.x + n, y: p.y },
        Direction::Column => Point { x: p.x, y: p.y + n },
    }
}

impl<'a> BreakSource for LabelMap<'a> {
    ghost framed = { λ m. m.frame.corners };

    ghost broken = { λ m g. label_broken (map_of m) g };

    ghost outside = { λ m g. label_outside (map_of m) g };

    fn frame(&self) -> Corners {
        self.frame.corners()
    }

    fn gap(&self, g: Gap) -> Wholeness {
        if !self.frame.is_gap(g) {
            return Wholeness::Broken;
        }
        let n = self.frame.apart(g.resolution);
        let from = Point {
            x: g.from.x * n,
            y: g.from.y * n,
        };
        let to = further_on(g.direction, from, n);
        if self.label(from) == self.label(to) {
            Wholeness::Whole
        } else {
            Wholeness::Broken
        }
    }
}
