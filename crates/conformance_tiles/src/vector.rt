// A whole tile and what it becomes, read from a line `x0 y0 x1 y1 levels : samples -> samples`.
// The same text stands in both test programs.
use crate::fault::Fault;
use crate::worked::Worked;
use geometry::frame::Frame;
use std::alloc::Global;
use std::num::ParseIntError;
use std::str::FromStr;

#[derive(Drop)]
struct Vector {
    frame: Frame,
    // the samples row by row
    picture: Vec<i32>,
    // what they become at the same places
    bands: Vec<i32>,
}

fn number<T: FromStr<Err = ParseIntError>>(word: &str) -> Result<T, Fault> {
    word.parse::<T>().map_err(|_| Fault::Unreadable)
}

// The numbers of a text, apart by spaces. (A loop: a chain that collects takes longer for each of them.)
fn numbers(heap: Global, text: &str) -> Result<Vec<i32>, Fault> {
    let mut all = Vec::new(heap);
    for word in text.split_whitespace() {
        all.push(number::<i32>(word)?)?;
    }
    Ok(all)
}

// The frame `x0 y0 x1 y1 levels`. A sixth word is one too many, and no more are read.
fn frame_of(heap: Global, text: &str) -> Result<Frame, Fault> {
    let sides: Vec<u32> = text
        .split_whitespace()
        .take(6)
        .map(|word| number::<u32>(word))
        .try_collect(heap)?;
    let [x0, y0, x1, y1, levels] = sides.as_slice() else {
        return Err(Fault::Unreadable);
    };
    Ok(Frame::new(*x0, *y0, *x1, *y1, *levels)?)
}

impl Vector {
    fn read(heap: Global, line: &str) -> Result<Vector, Fault> {
        let (head, rest) = line.split_once(':').ok_or(Fault::Unreadable)?;
        let (left, right) = rest.split_once("->").ok_or(Fault::Unreadable)?;
        Ok(Vector {
            frame: frame_of(heap, head)?,
            picture: numbers(heap, left)?,
            bands: numbers(heap, right)?,
        })
    }
}

// A line as the crates have it: the bands that it tells, and the picture back. Nothing is broken, since all labels are equal.
pub fn run_vector(heap: Global, line: &str) -> Result<(), Fault> {
    let vector = Vector::read(heap, line)?;
    let labels = vec![in heap; 1u16; vector.frame.plane_length()]?;
    let worked = Worked {
        frame: vector.frame,
        labels: labels.as_slice(),
        picture: vector.picture.as_slice(),
        bands: vector.bands.as_slice(),
    };
    worked.by_mean(heap)?;
    worked.by_carry(heap)
}
