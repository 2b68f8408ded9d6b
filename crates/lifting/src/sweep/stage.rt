// One stage down and one stage up over a lent plane.
ghost use Rattle.std.specs.Prelude.{◌≡◌, ℕ, true, length, slice_index_or};
ghost use Rattle.geometry.specs.Frames.{corners_of};
ghost use Rattle.geometry.specs.Refusals.{seen, accepted};
ghost use Rattle.lifting.specs.Laws.{StageLaws};
ghost use Rattle.lifting.specs.Meanings.{meant};
ghost use Rattle.lifting.specs.Runs.{stage_by};
ghost use Rattle.lifting.specs.Stages.{stage_down, stage_up, stage_answer, after};

use super::lift_both;
use breaks::source::BreakSource;
use geometry::direction::Direction;
use geometry::frame::Frame;
use geometry::refusal::Refusal;
use samples::sample::Sample;
use samples::step::Step;

// Whether a stage may work: the plane has the right length, the frame has the stage, and the source has the same frame.
fn admitted<B: BreakSource>(
    frame: &Frame,
    stage: u32,
    source: &B,
    length: usize,
) -> Result<(), Refusal>
    ensures { seen (λ u. u) result ≡ stage_answer (corners_of frame.now) (B.BreakSource.framed source.now) stage length }
{
    if length != frame.plane_length() {
        return Err(Refusal::WrongLength);
    }
    if stage < 1 || frame.levels() < stage {
        return Err(Refusal::WrongStage);
    }
    if !frame.is_same(source.frame()) {
        return Err(Refusal::OtherFrame);
    }
    Ok(())
}

// Every sample of a lent plane is a value that its type can hold. (This compiles to nothing.)
pub fn all_known<K: Sample>(plane: &[K])
    ensures { (k : ℕ) → K.Sample.kind.held (slice_index_or plane.now k K.Sample.kind.nothing) ≡ true }
{
    for x in plane {
        let _ = x.known();
    }
}

// The lines of one direction and then those of the other, where the stage is admitted.
fn work<S: Step, B: BreakSource, const FIRST: bool, const SECOND: bool>(
    frame: &Frame,
    stage: u32,
    step: &S,
    source: &B,
    order: (Direction, Direction),
    plane: &mut [S::Sample],
) -> Result<(), Refusal>
    ensures answer { seen (λ u. u) result ≡ stage_answer (corners_of frame.now) (B.BreakSource.framed source.now) stage (length plane.old) }
    ensures plane { plane.new ≡ after (stage_answer (corners_of frame.now) (B.BreakSource.framed source.now) stage (length plane.old)) (stage_by (meant S.Sample.Sample.kind (S.Step.rule step.now)) (corners_of frame.now) (B.BreakSource.broken source.now) FIRST SECOND stage order plane.old) plane.old }
    ensures held { (k : ℕ) → S.Sample.Sample.kind.held (slice_index_or plane.old k S.Sample.Sample.kind.nothing) ≡ true }
{
    all_known(plane);
    admitted(frame, stage, source, plane.len())?;
    let l = frame.lattice(stage);
    lift_both::<S, B, FIRST, SECOND>(step, source, stage, order.0, l, plane);
    lift_both::<S, B, FIRST, SECOND>(step, source, stage, order.1, l, plane);
    Ok(())
}

// Stage `stage` down: each column, then each row, odd points before even ones. Or a refusal that changes nothing: `WrongLength`,
// `WrongStage` where the frame has no such stage, or `OtherFrame` where the source has another frame.
pub fn down<S: Step, B: BreakSource>(
    frame: &Frame,
    stage: u32,
    step: &S,
    source: &B,
    plane: &mut [S::Sample],
) -> Result<(), Refusal>
    ensures answer { seen (λ u. u) result ≡ stage_answer (corners_of frame.now) (B.BreakSource.framed source.now) stage (length plane.old) }
    ensures plane { plane.new ≡ after (stage_answer (corners_of frame.now) (B.BreakSource.framed source.now) stage (length plane.old)) (stage_down (meant S.Sample.Sample.kind (S.Step.rule step.now)) (corners_of frame.now) (B.BreakSource.broken source.now) stage plane.old) plane.old }
    ensures lossless { stage_answer (corners_of frame.now) (B.BreakSource.framed source.now) stage (length plane.old) ≡ accepted tt → stage_up (meant S.Sample.Sample.kind (S.Step.rule step.now)) (corners_of frame.now) (B.BreakSource.broken source.now) stage plane.new ≡ plane.old }
    ensures laws { StageLaws (meant S.Sample.Sample.kind (S.Step.rule step.now)) (corners_of frame.now) (B.BreakSource.broken source.now) }
{
    let order = (Direction::Column, Direction::Row);
    work::<S, B, true, false>(frame, stage, step, source, order, plane)
}

// Stage `stage` up, which undoes this in reverse, with the same refusals.
pub fn up<S: Step, B: BreakSource>(
    frame: &Frame,
    stage: u32,
    step: &S,
    source: &B,
    plane: &mut [S::Sample],
) -> Result<(), Refusal>
    ensures answer { seen (λ u. u) result ≡ stage_answer (corners_of frame.now) (B.BreakSource.framed source.now) stage (length plane.old) }
    ensures plane { plane.new ≡ after (stage_answer (corners_of frame.now) (B.BreakSource.framed source.now) stage (length plane.old)) (stage_up (meant S.Sample.Sample.kind (S.Step.rule step.now)) (corners_of frame.now) (B.BreakSource.broken source.now) stage plane.old) plane.old }
    ensures lossless { stage_answer (corners_of frame.now) (B.BreakSource.framed source.now) stage (length plane.old) ≡ accepted tt → stage_down (meant S.Sample.Sample.kind (S.Step.rule step.now)) (corners_of frame.now) (B.BreakSource.broken source.now) stage plane.new ≡ plane.old }
    ensures laws { StageLaws (meant S.Sample.Sample.kind (S.Step.rule step.now)) (corners_of frame.now) (B.BreakSource.broken source.now) }
{
    let order = (Direction::Row, Direction::Column);
    work::<S, B, false, true>(frame, stage, step, source, order, plane)
}
