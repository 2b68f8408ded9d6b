// How frames are made, and what they answer.
ghost use Rattle.std.specs.Prelude.{◌≡◌, ◌+◌, ◌^◌, ◌<◌, ◌≤◌};
ghost use Rattle.geometry.specs.Frames.{corners_of, frame_answer, same_frame, resolution_of, is_gap, ceil, apart as apart_of};
ghost use Rattle.geometry.specs.Places.{plane_length, place as the_place, place_answer, lattice_of, Places, Spots, Steps};
ghost use Rattle.geometry.specs.Refusals.{seen};

use super::Frame;
use crate::corners::Corners;
use crate::direction::Direction;
use crate::gap::Gap;
use crate::lattice::Lattice;
use crate::point::Point;
use crate::refusal::Refusal;

// Five numbers are a frame's, or are refused.
impl TryFrom<Corners> for Frame {
    type Error = Refusal;

    ghost try_from_gives = { λ c r. seen corners_of r ≡ frame_answer c };

    fn try_from(corners: Corners) -> Result<Frame, Refusal> {
        if corners.x1 <= corners.x0 || corners.y1 <= corners.y0 {
            return Err(Refusal::EmptySide);
        }
        if corners.x1 - corners.x0 > 512 || corners.y1 - corners.y0 > 512 {
            return Err(Refusal::TooLarge);
        }
        if corners.x1 > 1_073_741_824 || corners.y1 > 1_073_741_824 {
            return Err(Refusal::TooLarge);
        }
        if corners.levels > 6 {
            return Err(Refusal::TooManyLevels);
        }
        Ok(Frame { corners })
    }
}

impl Frame {
    pub fn new(x0: u32, y0: u32, x1: u32, y1: u32, levels: u32) -> Result<Frame, Refusal>
        ensures { seen corners_of result ≡ frame_answer (record { x0 = x0; y0 = y0; x1 = x1; y1 = y1; levels = levels }) }
    {
        Frame::try_from(Corners {
            x0,
            y0,
            x1,
            y1,
            levels,
        })
    }

    // The frame's numbers.
    pub fn corners(&self) -> Corners
        ensures { result ≡ corners_of self.now }
    {
        self.corners
    }

    // The number of levels.
    pub fn levels(&self) -> u32
        ensures { result ≡ (corners_of self.now).levels }
    {
        self.corners.levels
    }

    // Whether these are the numbers of the same frame.
    pub fn is_same(&self, other: Corners) -> bool
        ensures { result ≡ same_frame (corners_of self.now) other }
    {
        other == self.corners
    }

    // How far apart neighbouring points of resolution r stand among the finest points; 1 above the frame's levels.
    pub fn apart(&self, r: u32) -> u32
        ensures is { result ≡ apart_of (corners_of self.now) r }
        ensures some { 0 < result }
        ensures few { result ≤ 64 }
    {
        1 << self.corners.levels.saturating_sub(r)
    }

    // The columns and the rows of resolution r, each with its start and end; all 0 above the frame's levels.
    #[tactic(auto, unfolding(crate::specs::Frames::low, crate::specs::Frames::high, crate::specs::Frames::apart))]
    pub fn resolution(&self, r: u32) -> ((u32, u32), (u32, u32))
        ensures { result ≡ resolution_of (corners_of self.now) r }
    {
        if r > self.corners.levels {
            return ((0, 0), (0, 0));
        }
        let c = self.corners;
        let d = c.levels - r;
        (
            (ceil_of(c.x0, d), ceil_of(c.x1, d)),
            (ceil_of(c.y0, d), ceil_of(c.y1, d)),
        )
    }

    // How many samples a plane of the frame has.
    #[tactic(auto, unfolding(crate::specs::Places::plane_length))]
    pub fn plane_length(&self) -> usize
        ensures { result ≡ plane_length (corners_of self.now) }
    {
        let c = self.corners;
        (c.y1 - c.y0) as usize * (c.x1 - c.x0) as usize
    }

    // Where the sample of a finest point is kept in a plane.
    pub fn place(&self, p: Point) -> Result<usize, Refusal>
        ensures answer { seen (λ k. k) result ≡ place_answer (corners_of self.now) p }
        ensures laws { Places (corners_of self.now) }
    {
        let c = self.corners;
        if !(c.x0..c.x1).contains(&p.x) || !(c.y0..c.y1).contains(&p.y) {
            return Err(Refusal::Outside);
        }
        Ok(self.place_of(p))
    }

    // Whether a gap is one of the frame.
    pub fn is_gap(&self, g: Gap) -> bool
        ensures { result ≡ is_gap (corners_of self.now) g }
    {
        let ((left, right), (top, bottom)) = self.resolution(g.resolution);
        // Taken apart: read as one word, the point would wait for the two words that the caller has just written.
        let Point { x, y } = g.from;
        if g.resolution == 0 || !(left..right).contains(&x) || !(top..bottom).contains(&y) {
            return false;
        }
        match g.direction {
            Direction::Row => x + 1 < right,
            Direction::Column => y + 1 < bottom,
        }
    }

    // The points of resolution r by the places of their samples; none above the frame's levels.
    pub fn lattice(&self, r: u32) -> Lattice
        ensures is { result ≡ lattice_of (corners_of self.now) r }
        ensures steps { Steps (corners_of self.now) r result }
        ensures spots { Spots (corners_of self.now) r }
    {
        if r > self.corners.levels {
            return Lattice::default();
        }
        let n = self.apart(r);
        let ((left, right), (top, bottom)) = self.resolution(r);
        Lattice {
            left,
            top,
            columns: right - left,
            rows: bottom - top,
            first: self.place_of(Point {
                x: left * n,
                y: top * n,
            }),
            across: n as usize,
            down: n as usize * (self.corners.x1 - self.corners.x0) as usize,
        }
    }

    // The place of a finest point that is one of the frame or at most 64 past it.
    #[tactic(auto, unfolding(crate::specs::Places::place))]
    fn place_of(&self, p: Point) -> usize
        requires left { (corners_of self.now).x0 ≤ p.x }
        requires top { (corners_of self.now).y0 ≤ p.y }
        requires right { p.x ≤ (corners_of self.now).x1 + 64 }
        requires bottom { p.y ≤ (corners_of self.now).y1 + 64 }
        ensures { result ≡ the_place (corners_of self.now) p }
    {
        let c = self.corners;
        (p.y - c.y0) as usize * (c.x1 - c.x0) as usize + (p.x - c.x0) as usize
    }
}

// a / 2^d rounded up.
fn ceil_of(a: u32, d: u32) -> u32
    requires few { d ≤ 6 }
    requires near { a ≤ 1073741824 }
    ensures { result ≡ ceil a (2 ^ d) }
{
    (a + ((1 << d) - 1)) >> d
}
