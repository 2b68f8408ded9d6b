// How rasters are made, and what they answer.
ghost use Rattle.std.specs.Prelude.{◌≡◌};
ghost use Rattle.netpbm.specs.Pictures.{within, raster_answer};
ghost use Rattle.netpbm.specs.Rasters.{picture_of, seen_raster};

use super::Raster;
use crate::fault::{Fault, check_len};

// Whether each sample is at most the maxval.
fn all_within(maxval: u16, samples: &[u16]) -> bool
    ensures { result ≡ within maxval samples.now }
{
    samples.iter().all(|s| *s <= maxval)
}

impl Raster {
    pub fn new(width: usize, height: usize, maxval: u16, samples: Vec<u16>) -> Result<Raster, Fault>
        ensures { seen_raster result ≡ raster_answer width height maxval samples.items }
    {
        if width == 0 || height == 0 {
            return Err(Fault::ZeroSize);
        }
        if maxval == 0 {
            return Err(Fault::BadMaxval);
        }
        let count = width.checked_mul(height).ok_or(Fault::CutShort)?;
        check_len(samples.len(), count)?;
        if !all_within(maxval, samples.as_slice()) {
            return Err(Fault::AboveMaxval);
        }
        Ok(Raster {
            width,
            height,
            maxval,
            samples,
        })
    }

    pub fn width(&self) -> usize
        ensures { result ≡ (picture_of self.now).width }
    {
        self.width
    }

    pub fn height(&self) -> usize
        ensures { result ≡ (picture_of self.now).height }
    {
        self.height
    }

    pub fn maxval(&self) -> u16
        ensures { result ≡ (picture_of self.now).maxval }
    {
        self.maxval
    }

    // The samples row by row, from the top left on.
    pub fn samples(&self) -> &[u16]
        ensures { result.now ≡ (picture_of self.now).samples }
    {
        self.samples.as_slice()
    }
}
