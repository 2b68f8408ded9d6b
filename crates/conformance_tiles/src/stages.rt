// All the stages of a frame by the crates under test.
// The same text stands in both test programs.
use breaks::source::BreakSource;
use geometry::frame::Frame;
use geometry::refusal::Refusal;
use samples::step::Step;

// The transform of the planes of a frame by a step, where the breaks are those of a source.
#[derive(Drop)]
pub struct Stages<'a, S, B> {
    pub frame: &'a Frame,
    pub step: &'a S,
    pub source: &'a B,
}

impl<S: Step, B: BreakSource> Stages<'_, S, B> {
    // The stages down, from the finest to the first.
    pub fn down(&self, plane: &mut [S::Sample]) -> Result<(), Refusal> {
        for stage in (1..=self.frame.levels()).rev() {
            lifting::down(self.frame, stage, self.step, self.source, plane)?;
        }
        Ok(())
    }

    // The stages up, from the first to the finest.
    pub fn up(&self, plane: &mut [S::Sample]) -> Result<(), Refusal> {
        for stage in 1..=self.frame.levels() {
            lifting::up(self.frame, stage, self.step, self.source, plane)?;
        }
        Ok(())
    }
}
