// A break source: a frame and a fixed set of broken gaps. It never refuses, and being used changes nothing.
ghost use Rattle.std.specs.Prelude.{◌≡◌, Bool, true, false};
ghost use Rattle.geometry.specs.declared.corners.Corners.{Corners};
ghost use Rattle.geometry.specs.declared.gap.Gap.{Gap};
ghost use Rattle.geometry.specs.Frames.{is_gap};
ghost use Rattle.breaks.specs.Sources.{is_broken, Flagged};

use crate::flags::Flags;
use crate::run::Run;
use crate::wholeness::Wholeness;
use geometry::corners::Corners;
use geometry::gap::Gap;

pub trait BreakSource {
    // the source's frame, as its numbers
    ghost framed: { Self → Corners };

    // its set of broken gaps
    ghost broken: { Self → Gap → Bool };

    // the law of a source: what is no gap of its frame is broken
    ghost outside: { (s : Self) (g : Gap) → is_gap (framed s) g ≡ false → broken s g ≡ true };

    // The numbers of its frame.
    fn frame(&self) -> Corners
        ensures { result ≡ framed self.now };

    // Whether a gap is broken.
    fn gap(&self, g: Gap) -> Wholeness
        ensures { is_broken result ≡ broken self.now g };

    // The same for the two gaps of each point of a run, as many points as there are flags. A source may have a quicker way.
    fn fill(&self, run: Run, flags: &mut [Flags])
        ensures { Flagged (broken self.now) flags.new run }
    {
        for (k, flag) in flags.iter_mut().enumerate() {
            let mut pair = Flags::default();
            if let Some(p) = run.point(k) {
                pair.after = self.gap(run.gap_after(p));
                if let Some(g) = run.gap_before(p) {
                    pair.before = self.gap(g);
                }
            }
            *flag = pair;
        }
    }
}
