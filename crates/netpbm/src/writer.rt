// Writing a picture to the bytes of a file.
ghost use Rattle.std.specs.Prelude.{◌≡◌, ◌<◌, true, ◌++◌, IfOk, OnOk};
ghost use Rattle.std.specs.List.{flat_map, All};
ghost use Rattle.netpbm.specs.Answers.{accepted};
ghost use Rattle.netpbm.specs.Pictures.{within};
ghost use Rattle.netpbm.specs.Parses.{parsed};
ghost use Rattle.netpbm.specs.Rasters.{picture_of};
ghost use Rattle.netpbm.specs.Writes.{pair_bytes, sample_bytes, header_bytes, written};

use crate::header::Depth;
use crate::raster::Raster;
use std::alloc::{AllocError, Global};

// Samples of one byte are put by a chain, those of two by a loop: after `flat_map` over arrays too little is known of the bytes.
fn put_narrow(out: &mut Vec<u8>, samples: &[u16]) -> Result<(), AllocError>
    requires { All (λ s. s < 256) samples.now }
    ensures { OnOk result (out.new.items ≡ out.old.items ++ samples.now) }
{
    out.extend(samples.iter().map(|s| *s as u8))
}

fn put_wide(out: &mut Vec<u8>, samples: &[u16]) -> Result<(), AllocError>
    ensures { OnOk result (out.new.items ≡ out.old.items ++ flat_map pair_bytes samples.now) }
{
    for s in samples {
        out.extend_from_slice(&s.to_be_bytes())?;
    }
    Ok(())
}

fn put_samples(out: &mut Vec<u8>, maxval: u16, samples: &[u16]) -> Result<(), AllocError>
    requires { within maxval samples.now ≡ true }
    ensures { OnOk result (out.new.items ≡ out.old.items ++ sample_bytes maxval samples.now) }
{
    match Depth::of(maxval) {
        Depth::One => put_narrow(out, samples),
        Depth::Two => put_wide(out, samples),
    }
}

fn put_header(heap: Global, raster: &Raster) -> Result<Vec<u8>, AllocError>
    ensures { IfOk result (λ v. v.items ≡ header_bytes (picture_of raster.now)) }
{
    let width = raster.width();
    let height = raster.height();
    let maxval = raster.maxval();
    let text = format!(in heap; "P5\n{width} {height}\n{maxval}\n")?;
    Ok(text.into_bytes())
}

// The bytes of the picture, which `read` reads back.
pub fn write(heap: Global, raster: &Raster) -> Result<Vec<u8>, AllocError>
    ensures bytes { IfOk result (λ v. v.items ≡ written (picture_of raster.now)) }
    ensures back { IfOk result (λ v. parsed v.items ≡ accepted (picture_of raster.now)) }
{
    let mut out = put_header(heap, raster)?;
    put_samples(&mut out, raster.maxval(), raster.samples())?;
    Ok(out)
}
