// Windows of a picture: cutting it into pieces of one size and putting a piece back.
ghost use Rattle.std.specs.Prelude.{◌≡◌, ◌+◌, ◌*◌, ◌<◌, length, nat_le, IfOk};
ghost use Rattle.netpbm.specs.Rasters.{picture_of};
ghost use Rattle.netpbm.specs.Windows.{across, piece, InRows, window_answer, seen_window, Covered, InsideChecked, PartRows, RowsPut, WindowGiven, put_answer, seen_done, AfterPut};
ghost use Rattle.netpbm.specs.Joins.{OwnWindowsAreTaken, JoinedWindowsAreTheRaster};

use crate::fault::{Fault, check_len};
use crate::raster::Raster;
use std::alloc::{AllocError, Global};

// A part of a picture: the column and the row of its first sample, and its size.
#[derive(Clone, Copy, PartialEq, Eq, Debug)]
pub struct Window {
    pub x: usize,
    pub y: usize,
    pub width: usize,
    pub height: usize,
}

// How many windows of at most `side` samples lie along a length.
pub fn windows_across(len: usize, side: usize) -> usize
    ensures { result ≡ across len side }
{
    if side == 0 { 0 } else { len.div_ceil(side) }
}

// Where the piece of this number begins, of those of `side` samples that lie along a length, and how long it is: `side`, or what is left.
fn piece_at(len: usize, side: usize, number: usize) -> Option<(usize, usize)>
    ensures { result ≡ piece len side number }
{
    if number >= windows_across(len, side) {
        return None;
    }
    let start = number * side;
    Some((start, side.min(len - start)))
}

// The window in this column and row of those that a picture is cut into: `side` wide and high, or what is left.
#[tactic(auto, using(crate::proofs::Covers::covered))]
pub fn window_at(
    width: usize,
    height: usize,
    side: usize,
    column: usize,
    row: usize,
) -> Option<Window>
    ensures answer { seen_window result ≡ window_answer width height side column row }
    ensures covered { Covered width height side }
{
    let (x, width) = piece_at(width, side, column)?;
    let (y, height) = piece_at(height, side, row)?;
    Some(Window {
        x,
        y,
        width,
        height,
    })
}

// Whether `len` samples from `start` on lie within so many.
fn lies_within(start: usize, len: usize, whole: usize) -> bool
    ensures { result ≡ nat_le (start + len) whole }
{
    start <= whole && len <= whole - start
}

impl Window {
    // Whether the window lies inside a picture of this size.
    fn check_inside(self, width: usize, height: usize) -> Result<(), Fault>
        ensures { InsideChecked self width height result }
    {
        if lies_within(self.x, self.width, width) && lies_within(self.y, self.height, height) {
            Ok(())
        } else {
            Err(Fault::NoWindow)
        }
    }
}

// The samples of a window row by row.
fn cut_rows(heap: Global, samples: &[u16], stride: usize, w: Window) -> Result<Vec<u16>, AllocError>
    requires lies { InRows stride (length samples.now) w }
    requires wide { 0 < stride }
    ensures { IfOk result (λ v. PartRows stride samples.now w w.height v.items) }
{
    let mut out = Vec::with_capacity(heap, w.height * w.width)?;
    let below = &samples[w.y * stride..];
    for row in below.chunks_exact(stride).take(w.height) {
        out.extend_from_slice(&row[w.x..w.x + w.width])?;
    }
    Ok(out)
}

// Writes the rows of a window into their places. (By index: after `chunks_exact_mut` a proof knows the length alone.)
fn put_rows(samples: &mut [u16], stride: usize, w: Window, part: &[u16])
    requires lies { InRows stride (length samples.old) w }
    requires whole { length part.now ≡ w.height * w.width }
    ensures put { RowsPut stride samples.old w w.height part.now samples.new }
    ensures own { PartRows stride samples.old w w.height part.now → samples.new ≡ samples.old }
{
    for row in 0..w.height {
        let start = (w.y + row) * stride + w.x;
        let from = row * w.width;
        samples[start..start + w.width].copy_from_slice(&part[from..from + w.width]);
    }
}

impl Raster {
    // The samples of a window row by row.
    pub fn window(&self, heap: Global, w: Window) -> Result<Vec<u16>, Fault>
        ensures { WindowGiven (picture_of self.now) w result }
    {
        w.check_inside(self.width(), self.height())?;
        Ok(cut_rows(heap, self.samples(), self.width(), w)?)
    }
}

// Writes the samples of a window into their places in rows of `width` samples.
#[tactic(auto, using(crate::proofs::Joins::own_taken, crate::proofs::Joins::joined_windows))]
pub fn put_window(samples: &mut [u16], width: usize, w: Window, part: &[u16]) -> Result<(), Fault>
    ensures answer { seen_done result ≡ put_answer width (length samples.old) w (length part.now) }
    ensures after { AfterPut (put_answer width (length samples.old) w (length part.now)) width samples.old w part.now samples.new }
    ensures own { PartRows width samples.old w w.height part.now → samples.new ≡ samples.old }
    ensures taken { OwnWindowsAreTaken }
    ensures joined { JoinedWindowsAreTheRaster }
{
    let rows = samples.len().checked_div(width).unwrap_or(0);
    w.check_inside(width, rows)?;
    check_len(part.len(), w.height * w.width)?;
    put_rows(samples, width, w, part);
    Ok(())
}
