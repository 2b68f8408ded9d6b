// Random tiles under labels, by the crates under test and by the plain implementation.
// The same text stands in both test programs.
use crate::fault::{Fault, compare};
use crate::generator::Generator;
use crate::plain::Plain;
use crate::stages::Stages;
use breaks::labels::LabelMap;
use breaks::source::BreakSource;
use geometry::frame::Frame;
use samples::MeanStep;
use std::alloc::Global;

#[derive(Drop)]
struct RandomTile {
    frame: Frame,
    labels: Vec<u16>,
    picture: Vec<i32>,
}

impl RandomTile {
    fn draw(generator: &mut Generator, heap: Global) -> Result<RandomTile, Fault> {
        let frame = generator.frame()?;
        Ok(RandomTile {
            frame,
            labels: generator.labels(heap, frame.plane_length())?,
            picture: generator.picture(heap, frame.plane_length())?,
        })
    }

    // The bands of every stage are those of the plain implementation, and the picture comes back.
    fn run(&self, heap: Global) -> Result<(), Fault> {
        let labels = self.labels.as_slice();
        let source = LabelMap::new(self.frame, labels)?;
        let plain = Plain::new(heap, self.frame.corners(), labels);
        let mut plane = self.picture.clone()?;
        let mut wanted = self.picture.clone()?;
        for stage in (1..=self.frame.levels()).rev() {
            lifting::down(&self.frame, stage, &MeanStep, &source, plane.as_mut_slice())?;
            plain.stage_down(stage, wanted.as_mut_slice())?;
            compare(plane.as_slice(), wanted.as_slice())?;
        }
        let stages = Stages {
            frame: &self.frame,
            step: &MeanStep,
            source: &source,
        };
        stages.up(plane.as_mut_slice())?;
        compare(plane.as_slice(), self.picture.as_slice())
    }
}

// So many random tiles.
pub fn run(heap: Global, tiles: u32) -> Result<(), Fault> {
    let mut generator = Generator::new(53);
    for _ in 0..tiles {
        RandomTile::draw(&mut generator, heap)?.run(heap)?;
    }
    Ok(())
}
