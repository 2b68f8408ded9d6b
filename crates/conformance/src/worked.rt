// A tile that was worked out elsewhere, tried with the crates under test.
// The same text stands in both test programs.
use crate::fault::{Fault, compare};
use crate::stages::Stages;
use breaks::labels::LabelMap;
use geometry::frame::Frame;
use samples::{CarryStep, MeanStep};
use std::alloc::Global;

#[derive(Clone, Copy)]
pub struct Worked<'a> {
    pub frame: Frame,
    pub labels: &'a [u16],
    // the samples row by row
    pub picture: &'a [i32],
    // what the mean step makes of them, at the same places
    pub bands: &'a [i32],
}

impl Worked<'_> {
    // By the mean step down to the bands and up to the picture again.
    pub fn by_mean(&self, heap: Global) -> Result<(), Fault> {
        let stages = Stages {
            frame: &self.frame,
            step: &MeanStep,
            source: &LabelMap::new(self.frame, self.labels)?,
        };
        let mut plane = self.picture.to_vec(heap)?;
        stages.down(plane.as_mut_slice())?;
        compare(plane.as_slice(), self.bands)?;
        stages.up(plane.as_mut_slice())?;
        compare(plane.as_slice(), self.picture)
    }

    // By the carry step there and back.
    pub fn by_carry(&self, heap: Global) -> Result<(), Fault> {
        let stages = Stages {
            frame: &self.frame,
            step: &CarryStep::<i32>::new(),
            source: &LabelMap::new(self.frame, self.labels)?,
        };
        let mut plane = self.picture.to_vec(heap)?;
        stages.down(plane.as_mut_slice())?;
        stages.up(plane.as_mut_slice())?;
        compare(plane.as_slice(), self.picture)
    }
}
