// Reading a picture from the bytes of a file.
ghost use Rattle.std.specs.Prelude.{◌≡◌, IfOk};
ghost use Rattle.netpbm.specs.Parses.{pairs, values, parsed, UnlessMemory};
ghost use Rattle.netpbm.specs.Rasters.{seen_raster};

use crate::fault::{Fault, check_len};
use crate::header::Depth;
use crate::items::take_header;
use crate::raster::Raster;
use std::alloc::{AllocError, Global};

// The samples that stand in the bytes.
fn take_samples(heap: Global, maxval: u16, bytes: &[u8]) -> Result<Vec<u16>, AllocError>
    ensures { IfOk result (λ v. v.items ≡ values maxval bytes.now) }
{
    match Depth::of(maxval) {
        Depth::One => narrow_samples(heap, bytes),
        Depth::Two => wide_samples(heap, bytes),
    }
}

// The room is asked for at once: `collect` asks for it again and again where it is refused.
fn narrow_samples(heap: Global, bytes: &[u8]) -> Result<Vec<u16>, AllocError>
    ensures { IfOk result (λ v. v.items ≡ bytes.now) }
{
    let mut out = Vec::with_capacity(heap, bytes.len())?;
    out.extend(bytes.iter().map(|b| u16::from(*b)))?;
    Ok(out)
}

fn wide_samples(heap: Global, bytes: &[u8]) -> Result<Vec<u16>, AllocError>
    ensures { IfOk result (λ v. v.items ≡ pairs bytes.now) }
{
    let (pairs, _) = bytes.as_chunks();
    let mut out = Vec::with_capacity(heap, pairs.len())?;
    out.extend(pairs.iter().map(|pair| u16::from_be_bytes(*pair)))?;
    Ok(out)
}

// The picture that the bytes say.
pub fn read(heap: Global, bytes: &[u8]) -> Result<Raster, Fault>
    ensures { UnlessMemory (seen_raster result) (parsed bytes.now) }
{
    let (head, rest) = take_header(bytes)?;
    check_len(rest.len(), head.size())?;
    let samples = take_samples(heap, head.maxval, rest)?;
    Raster::new(head.width, head.height, head.maxval, samples)
}
