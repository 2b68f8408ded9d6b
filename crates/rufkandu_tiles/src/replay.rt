// rufkandu replay: plays the calls of a script on a plate's one tile, and says what each came to.
use crate::failure::Failure;
use crate::files::{Plate, load_script};
use breaks::labels::LabelMap;
use commands::arguments::Replay;
use commands::transcript::{Rows, Transcript};
use netpbm::{Raster, Window};
use plates::work::numbers;
use samples::mean::MeanStep;
use tiles::play;

// The window that is the whole picture.
fn whole(picture: &Raster) -> Window {
    Window {
        x: 0,
        y: 0,
        width: picture.width(),
        height: picture.height(),
    }
}

// The whole replay.
pub fn replay<'a>(rt: &HostRuntime, run: Replay<'a>) -> Result<(), Failure<'a>> {
    let heap = rt.alloc();
    let calls = load_script(rt, run.script)?;
    let plate = Plate::load(rt, run.job)?;
    let raster = &plate.picture.raster;
    let w = whole(raster);
    let frame = plate.frame(w)?;
    let labels = plate.labels(heap, w)?;
    let source = LabelMap::new(frame, labels.as_slice())?;
    let mut plane = numbers(heap, raster.samples())?;
    let events = play(
        heap,
        frame,
        run.opening,
        plane.as_mut_slice(),
        &MeanStep,
        &source,
        calls.as_slice(),
    )?;
    let transcript = Transcript {
        calls: calls.as_slice(),
        events: events.as_slice(),
    };
    print!(rt; "{transcript}")?;
    if events.len() < calls.len() {
        return Err(Failure::NotAllowed);
    }
    let rows = Rows {
        plane: plane.as_slice(),
        width: raster.width(),
    };
    print!(rt; "{rows}")?;
    Ok(())
}
