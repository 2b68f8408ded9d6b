// rufkandu check: takes a plate through the transform and back, tile by tile, and says what came of it.
// What both programs have is the same text in both.
use crate::failure::Failure;
use crate::files::Plate;
use breaks::labels::LabelMap;
use commands::arguments::Job;
use geometry::corners::Corners;
use geometry::direction::Direction;
use geometry::frame::Frame;
use geometry::lattice::Lattice;
use geometry::refusal::Refusal;
use netpbm::{Window, window_at, windows_across};
use plates::gaps::count_gaps;
use plates::range::Range;
use plates::trip::Trip;
use plates::work::{count_lost, numbers, there_and_back};
use std::io;

// The side of a tile.
const SIDE: usize = 512;

// What a resolution of a tile is.
fn print_resolution(rt: &HostRuntime, frame: &Frame, source: &LabelMap, r: u32) -> io::Result<()> {
    let Lattice { columns, rows, .. } = frame.lattice(r);
    if r == 0 {
        return println!(rt; "  resolution {r}: {columns} x {rows} points");
    }
    let across = count_gaps(frame, source, r, Direction::Row);
    let along = count_gaps(frame, source, r, Direction::Column);
    let gaps = across.gaps + along.gaps;
    let broken = across.broken + along.broken;
    println!(rt; "  resolution {r}: {columns} x {rows} points, {gaps} gaps, {broken} broken")
}

fn print_resolutions(rt: &HostRuntime, frame: &Frame, source: &LabelMap) -> io::Result<()> {
    for r in (0..=frame.levels()).rev() {
        print_resolution(rt, frame, source, r)?;
    }
    Ok(())
}

fn print_frame(rt: &HostRuntime, number: usize, frame: &Frame) -> io::Result<()> {
    let Corners {
        x0,
        y0,
        x1,
        y1,
        levels,
    } = frame.corners();
    println!(rt; "tile {number}: x {x0} to {x1}, y {y0} to {y1}, {levels} levels")
}

// The range of the plane at each stage of the way down, and where the way up ended.
fn print_trip(rt: &HostRuntime, trip: &Trip) -> io::Result<()> {
    let stages = (0..trip.ranges.len()).rev();
    for (stage, range) in stages.zip(trip.ranges.as_slice()) {
        let Range { least, greatest } = *range;
        println!(rt; "  stage {stage}: samples from {least} to {greatest}")?;
    }
    let stage = trip.stage;
    println!(rt; "  back at stage {stage}, a picture")
}

// A plate under check, cut into tiles.
#[derive(Drop)]
struct Tiling<'r, 'a> {
    rt: &'r HostRuntime,
    plate: Plate<'a>,
}

impl<'r, 'a> Tiling<'r, 'a> {
    // How many tiles stand beside one another.
    fn columns(&self) -> usize {
        windows_across(self.plate.picture.raster.width(), SIDE)
    }

    // How many tiles stand below one another.
    fn rows(&self) -> usize {
        windows_across(self.plate.picture.raster.height(), SIDE)
    }

    fn window(&self, column: usize, row: usize) -> Option<Window> {
        let raster = &self.plate.picture.raster;
        window_at(raster.width(), raster.height(), SIDE, column, row)
    }

    // Refuses what the frame of the last tile is refused for; the frames before it are refused for nothing else.
    fn admit(&self) -> Result<(), Refusal> {
        let column = self.columns().saturating_sub(1);
        let row = self.rows().saturating_sub(1);
        if let Some(w) = self.window(column, row) {
            let _ = self.plate.frame(w)?;
        }
        Ok(())
    }

    // One tile; the answer is how many samples did not come back.
    fn check_tile(&self, number: usize, w: Window) -> Result<usize, Failure<'a>> {
        let rt = self.rt;
        let heap = rt.alloc();
        let frame = self.plate.frame(w)?;
        let samples = self.plate.picture.window(heap, w)?;
        let labels = self.plate.labels(heap, w)?;
        let source = LabelMap::new(frame, labels.as_slice())?;
        print_frame(rt, number, &frame)?;
        print_resolutions(rt, &frame, &source)?;
        let mut plane = numbers(heap, samples.as_slice())?;
        let trip = there_and_back(heap, &frame, &source, plane.as_mut_slice())?;
        print_trip(rt, &trip)?;
        let count = samples.len();
        let differ = count_lost(plane.as_slice(), samples.as_slice());
        if differ == 0 {
            println!(rt; "  all {count} samples came back")?;
        } else {
            println!(rt; "  {differ} of {count} samples did not come back")?;
        }
        Ok(differ)
    }

    // The tiles of one row of tiles; the answer is how many samples did not come back.
    fn check_row(&self, row: usize) -> Result<usize, Failure<'a>> {
        let columns = self.columns();
        let mut differ = 0usize;
        for column in 0..columns {
            if let Some(w) = self.window(column, row) {
                let number = row
                    .saturating_mul(columns)
                    .saturating_add(column)
                    .saturating_add(1);
                differ = differ.saturating_add(self.check_tile(number, w)?);
            }
        }
        Ok(differ)
    }

    // Every tile; the answer is how many samples did not come back.
    fn check_rows(&self) -> Result<usize, Failure<'a>> {
        let mut differ = 0usize;
        for row in 0..self.rows() {
            differ = differ.saturating_add(self.check_row(row)?);
        }
        Ok(differ)
    }
}

// The whole check.
pub fn check<'a>(rt: &HostRuntime, job: Job<'a>) -> Result<(), Failure<'a>> {
    let tiling = Tiling {
        rt,
        plate: Plate::load(rt, job)?,
    };
    tiling.admit()?;
    let name = job.plate;
    let raster = &tiling.plate.picture.raster;
    let width = raster.width();
    let height = raster.height();
    let maxval = raster.maxval();
    let tiles = tiling.columns().saturating_mul(tiling.rows());
    println!(rt; "{name}: {width} x {height} samples, maxval {maxval}, {tiles} tiles")?;
    let differ = tiling.check_rows()?;
    if differ > 0 {
        return Err(Failure::Differs(differ));
    }
    let count = raster.samples().len();
    println!(rt; "all {count} samples of {tiles} tiles came back")?;
    Ok(())
}
