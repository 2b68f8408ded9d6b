// The work on one tile.
ghost use Rattle.std.specs.Prelude.{◌≡◌, ◌≤◌, true, not, ◌&&◌, List, map, length, ℤ, pos, nat_lt, IfOk, MatchResult, slice_index_or};
ghost use Rattle.geometry.specs.declared.refusal.Refusal.TheVariants.{TooLarge as too_large};
ghost use Rattle.geometry.specs.Frames.{corners_of, frame_answer, same_frame};
ghost use Rattle.geometry.specs.Refusals.{seen};
ghost use Rattle.lifting.specs.Stages.{Plane};
ghost use Rattle.tiles.specs.Views.{bands_tile, with_plane};
ghost use Rattle.plates.specs.Bands.{by_mean, ends, bands_at, stage_ranges, TripOf};
ghost use Rattle.plates.specs.Tiles.{tile_corners, is_number, lost};
ghost use Rattle.plates.specs.Tallies.{count};

use crate::range::Range;
use crate::trip::Trip;
use breaks::source::BreakSource;
use geometry::frame::Frame;
use geometry::point::Point;
use geometry::refusal::Refusal;
use lifting::all_known;
use netpbm::Window;
use samples::mean::MeanStep;
use std::alloc::{AllocError, Global};
use tiles::{Bands, Picture, Unplayed};

// A number as a coordinate; it is too large where it has more than 32 bits.
fn coordinate(n: usize) -> Result<u32, Refusal>
    ensures { MatchResult result (λ x. x ≡ n) (λ e. (e ≡ too_large) × (4294967296 ≤ n)) }
{
    u32::try_from(n).map_err(|_| Refusal::TooLarge)
}

// The frame of the tile at a window of a plate whose first sample is at the point `at`.
pub fn frame_at(at: Point, levels: u32, w: Window) -> Result<Frame, Refusal>
    ensures { seen corners_of result ≡ frame_answer (tile_corners at levels w) }
{
    if w.width == 0 || w.height == 0 {
        return Err(Refusal::EmptySide);
    }
    let x0 = w.x.saturating_add(at.x as usize);
    let y0 = w.y.saturating_add(at.y as usize);
    let x1 = x0.saturating_add(w.width);
    let y1 = y0.saturating_add(w.height);
    Frame::new(
        coordinate(x0)?,
        coordinate(y0)?,
        coordinate(x1)?,
        coordinate(y1)?,
        levels,
    )
}

// The samples as numbers.
pub fn numbers(heap: Global, samples: &[u16]) -> Result<Vec<i32>, AllocError>
    ensures { IfOk result (λ v. v.items ≡ map pos samples.now) }
{
    let mut out = Vec::with_capacity(heap, samples.len())?;
    out.extend(samples.iter().map(|s| i32::from(*s)))?;
    Ok(out)
}

// The range of some numbers; of none, 0 to 0.
pub fn range_of(plane: &[i32]) -> Range
    ensures { result ≡ ends plane.now }
{
    let least = plane.iter().copied().min().unwrap_or(0);
    let greatest = plane.iter().copied().max().unwrap_or(0);
    Range { least, greatest }
}

// Every stage down, from the highest. The answer is the range of the plane at each stage.
// Where there is no memory for it, nothing is done.
fn descend<B: BreakSource>(
    heap: Global,
    bands: &mut Bands,
    source: &B,
    plane: &mut [i32],
) -> Result<Vec<Range>, AllocError>
    requires plane { Plane by_mean (bands_tile bands.old).frame plane.old }
    requires same { same_frame (bands_tile bands.old).frame (B.BreakSource.framed source.now) ≡ true }
    requires top { (bands_tile bands.old).stage ≡ (bands_tile bands.old).frame.levels }
    ensures { MatchResult result (λ v. (v.items ≡ stage_ranges (bands_tile bands.old).frame (B.BreakSource.broken source.now) plane.old) × (with_plane (bands_tile bands.new) plane.new ≡ bands_at (bands_tile bands.old).frame (B.BreakSource.broken source.now) plane.old 0)) (λ _. plane.new ≡ plane.old) }
{
    let levels = bands.stage();
    let mut ranges = Vec::with_capacity(heap, levels as usize + 1)?;
    ranges.push(range_of(plane)).unwrap();
    for _stage in (0..levels).rev() {
        let _ = bands.down(plane, &MeanStep, source);
        ranges.push(range_of(plane)).unwrap();
    }
    Ok(ranges)
}

// Every stage up, from stage 0: of the whole transform of a picture it makes that picture.
fn ascend<B: BreakSource>(levels: u32, bands: &mut Bands, source: &B, plane: &mut [i32])
    requires same { same_frame (bands_tile bands.old).frame (B.BreakSource.framed source.now) ≡ true }
    requires all { levels ≡ (bands_tile bands.old).frame.levels }
    ensures { (xs : List ℤ) → Plane by_mean (bands_tile bands.old).frame xs → with_plane (bands_tile bands.old) plane.old ≡ bands_at (bands_tile bands.old).frame (B.BreakSource.broken source.now) xs 0 → with_plane (bands_tile bands.new) plane.new ≡ bands_at (bands_tile bands.old).frame (B.BreakSource.broken source.now) xs levels }
{
    for _stage in 0..levels {
        let _ = bands.up(plane, &MeanStep, source);
    }
}

// Takes a tile by the mean step from a picture down through every stage and up to a picture again, after which its plane is what it was.
// 4 for a plane of the wrong length, 11 for a source with another frame.
pub fn there_and_back<B: BreakSource>(
    heap: Global,
    frame: &Frame,
    source: &B,
    plane: &mut [i32],
) -> Result<Trip, Unplayed>
    ensures trip { TripOf (corners_of frame.now) (B.BreakSource.framed source.now) (B.BreakSource.broken source.now) plane.old result }
    ensures back { plane.new ≡ plane.old }
{
    let picture = Picture::open(*frame, plane)?;
    if !frame.is_same(source.frame()) {
        return Err(Unplayed::Refused(Refusal::OtherFrame));
    }
    all_known(plane);
    let mut bands = picture.begin();
    let ranges = descend(heap, &mut bands, source, plane)?;
    ascend(frame.levels(), &mut bands, source, plane);
    let picture = bands.finish().map_err(|back| back.why)?;
    Ok(Trip {
        ranges,
        stage: picture.stage(),
    })
}

// Whether the plane does not have a sample at place k.
fn is_lost(plane: &[i32], k: usize, sample: u16) -> bool
    ensures { result ≡ not (nat_lt k (length plane.now) && is_number sample (slice_index_or plane.now k (pos 0))) }
{
    plane.get(k).copied() != Some(i32::from(sample))
}

// How many samples the plane does not have in their places.
pub fn count_lost(plane: &[i32], samples: &[u16]) -> usize
    ensures { result ≡ count (lost plane.now samples.now) (length samples.now) }
{
    samples
        .iter()
        .enumerate()
        .filter(|(k, sample)| is_lost(plane, *k, **sample))
        .count()
}
