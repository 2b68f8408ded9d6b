// The mean step's transform again, written plainly and apart from the crates under test. A stage takes each line, cuts it at the
// breaks into pieces, extends each piece by mirroring it at its two ends, lifts it, and puts it back.
// This text stands in both test programs: it is there to be compared, and a library would have to promise its values.
use geometry::corners::Corners;
use std::alloc::{AllocError, Global};
use std::ops::Range;

// How many points a piece is extended by at each end: each of the two steps of lifting leaves out the two outermost.
const MARGIN: usize = 2;

// A point of a line: whether its coordinate in its resolution is odd, and a value that goes with it, which is its finest
// coordinate, the place of its sample in the plane, or the sample.
#[derive(Clone, Copy)]
struct Point<T> {
    odd: bool,
    value: T,
}

impl<T> Point<T> {
    // The point with another value.
    fn with<U>(&self, value: U) -> Point<U> {
        Point {
            odd: self.odd,
            value,
        }
    }
}

// Half the sum of two numbers, rounded down.
fn half(a: i32, b: i32) -> i32 {
    (i64::from(a) + i64::from(b)).div_euclid(2) as i32
}

// A quarter of the sum of two numbers and 2, rounded down.
fn quarter(a: i32, b: i32) -> i32 {
    (i64::from(a) + i64::from(b) + 2).div_euclid(4) as i32
}

// The transform of the planes of a frame under the labels of its finest points.
#[derive(Clone, Copy)]
pub struct Plain<'a> {
    heap: Global,
    frame: Corners,
    labels: &'a [u16],
}

impl<'a> Plain<'a> {
    pub fn new(heap: Global, frame: Corners, labels: &'a [u16]) -> Plain<'a> {
        Plain {
            heap,
            frame,
            labels,
        }
    }

    // Where the finest point (x, y) has its sample.
    pub fn place(&self, x: u32, y: u32) -> usize {
        let Corners { x0, y0, x1, .. } = self.frame;
        let width = x1.abs_diff(x0) as usize;
        y.abs_diff(y0) as usize * width + x.abs_diff(x0) as usize
    }

    // The finest coordinates of a range that a resolution has, whose points are `apart` from each other. Every other one of them
    // is odd in the resolution, and the next coarser resolution lacks it.
    fn coordinates(&self, finest: Range<u32>, apart: u32) -> Result<Vec<Point<u32>>, AllocError> {
        finest
            .filter(|t| t.is_multiple_of(apart))
            .map(|t| Point {
                odd: !t.is_multiple_of(apart.saturating_mul(2)),
                value: t,
            })
            .collect(self.heap)
    }

    // A piece of at least two points with MARGIN points more at each end: it goes there and back over and over, each time turning
    // at its first and its last point without repeating them.
    fn extended(&self, piece: &[Point<i32>]) -> Result<Vec<Point<i32>>, AllocError> {
        let [_, inner @ .., _] = piece else {
            return piece.to_vec(self.heap);
        };
        let period = piece.len() + inner.len();
        piece
            .iter()
            .chain(inner.iter().rev())
            .cycle()
            .skip(period - MARGIN)
            .take(piece.len() + 2 * MARGIN)
            .copied()
            .collect(self.heap)
    }

    // The points but the first and the last after a step of lifting: those of one parity become what the step makes of them and
    // their two neighbours.
    fn lifted<F: Fn(i32, i32, i32) -> i32>(
        &self,
        points: &[Point<i32>],
        odd: bool,
        step: F,
    ) -> Result<Vec<Point<i32>>, AllocError>
        requires { F.IsAlwaysCallable step }
    {
        points
            .array_windows::<3>()
            .map(|[before, own, after]| {
                if own.odd == odd {
                    own.with(step(own.value, before.value, after.value))
                } else {
                    *own
                }
            })
            .collect(self.heap)
    }

    // Lifts the points with these places, none of which a break parts.
    fn lift_piece(&self, places: &[Point<usize>], plane: &mut [i32]) -> Result<(), AllocError> {
        let samples: Vec<Point<i32>> = places
            .iter()
            .filter_map(|point| plane.get(point.value).map(|sample| point.with(*sample)))
            .collect(self.heap)?;
        let whole = self.extended(samples.as_slice())?;
        let predicted = self.lifted(whole.as_slice(), true, |own, before, after| {
            own.wrapping_sub(half(before, after))
        })?;
        let updated = self.lifted(predicted.as_slice(), false, |own, before, after| {
            own.wrapping_add(quarter(before, after))
        })?;
        for (point, sample) in places.iter().zip(updated.iter()) {
            if let Some(own) = plane.get_mut(point.value) {
                *own = sample.value;
            }
        }
        Ok(())
    }

    // Lifts the points of a line, in pieces: a break parts neighbours with different labels. A piece of one point stays as it is.
    fn lift_line(&self, places: &[Point<usize>], plane: &mut [i32]) -> Result<(), AllocError> {
        let pieces = places.chunk_by(|a, b| self.labels.get(a.value) == self.labels.get(b.value));
        for piece in pieces.filter(|piece| piece.len() > 1) {
            self.lift_piece(piece, plane)?;
        }
        Ok(())
    }

    // Stage `stage` down: each column of its resolution, then each row.
    pub fn stage_down(&self, stage: u32, plane: &mut [i32]) -> Result<(), AllocError> {
        let c = self.frame;
        let apart = 2u32.saturating_pow(c.levels.saturating_sub(stage));
        let xs = self.coordinates(c.x0..c.x1, apart)?;
        let ys = self.coordinates(c.y0..c.y1, apart)?;
        for x in xs.iter() {
            let column: Vec<Point<usize>> = ys
                .iter()
                .map(|y| y.with(self.place(x.value, y.value)))
                .collect(self.heap)?;
            self.lift_line(column.as_slice(), plane)?;
        }
        for y in ys.iter() {
            let row: Vec<Point<usize>> = xs
                .iter()
                .map(|x| x.with(self.place(x.value, y.value)))
                .collect(self.heap)?;
            self.lift_line(row.as_slice(), plane)?;
        }
        Ok(())
    }
}
