// The way of a plane down through every stage and up again.
ghost use Rattle.std.specs.Prelude.{◌≡◌, true, List, length, ℤ};
ghost use Rattle.geometry.specs.Frames.{corners_of, same_frame};
ghost use Rattle.geometry.specs.Places.{plane_length};
ghost use Rattle.geometry.specs.Refusals.{seen};
ghost use Rattle.lifting.specs.Stages.{transform, Plane};
ghost use Rattle.plates.specs.Bands.{by_mean};
ghost use Rattle.rufkandu.specs.Bands.{bands_answer};

use breaks::source::BreakSource;
use geometry::frame::Frame;
use geometry::refusal::Refusal;
use lifting::{all_known, down, up};
use plates::range::Range;
use plates::work::range_of;
use samples::mean::MeanStep;

// Every stage down, from the finest. None of them refuses a plane and a source of the frame.
fn descend<B: BreakSource>(frame: &Frame, source: &B, plane: &mut [i32])
    requires long { length plane.old ≡ plane_length (corners_of frame.now) }
    requires same { same_frame (corners_of frame.now) (B.BreakSource.framed source.now) ≡ true }
    ensures { plane.new ≡ transform by_mean (corners_of frame.now) (B.BreakSource.broken source.now) 0 plane.old }
{
    for stage in (1..=frame.levels()).rev() {
        let _ = down(frame, stage, &MeanStep, source, plane);
    }
}

// Every stage up, from the coarsest: of the bands of a plane it makes that plane.
fn ascend<B: BreakSource>(frame: &Frame, source: &B, plane: &mut [i32])
    requires long { length plane.old ≡ plane_length (corners_of frame.now) }
    requires same { same_frame (corners_of frame.now) (B.BreakSource.framed source.now) ≡ true }
    ensures { (xs : List ℤ) → Plane by_mean (corners_of frame.now) xs → plane.old ≡ transform by_mean (corners_of frame.now) (B.BreakSource.broken source.now) 0 xs → plane.new ≡ xs }
{
    for stage in 1..=frame.levels() {
        let _ = up(frame, stage, &MeanStep, source, plane);
    }
}

// Takes a plane by the mean step down through every stage and up again, after which it is what it was.
// The answer is the range of the bands, which is what the plane holds in between.
pub fn there_and_back<B: BreakSource>(
    frame: &Frame,
    source: &B,
    plane: &mut [i32],
) -> Result<Range, Refusal>
    ensures bands { seen (λ e. e) result ≡ bands_answer (corners_of frame.now) (B.BreakSource.framed source.now) (B.BreakSource.broken source.now) plane.old }
    ensures back { plane.new ≡ plane.old }
{
    if plane.len() != frame.plane_length() {
        return Err(Refusal::WrongLength);
    }
    if !frame.is_same(source.frame()) {
        return Err(Refusal::OtherFrame);
    }
    all_known(plane);
    descend(frame, source, plane);
    let bands = range_of(plane);
    ascend(frame, source, plane);
    Ok(bands)
}
