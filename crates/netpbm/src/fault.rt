// Why a picture is refused.
ghost use Rattle.std.specs.Prelude.{◌≡◌, Some};
ghost use Rattle.netpbm.specs.Texts.{fault_text};
ghost use Rattle.netpbm.specs.Lengths.{LengthChecked};
ghost use Rattle.netpbm.specs.declared.fault.Fault.TheVariants.{NoMemory};

use std::alloc::AllocError;
use std::cmp::Ordering;
use std::error::Error;
use std::fmt;

#[derive(Clone, Copy, PartialEq, Eq, Debug)]
pub enum Fault {
    // The bytes do not begin with `P5`.
    NotPgm,
    // The bytes end before the header or the samples are whole.
    CutShort,
    // Where a number with white space around it must stand, something else does.
    NoNumber,
    // The width or the height is 0.
    ZeroSize,
    // The maxval is 0 or over 65535.
    BadMaxval,
    // A sample is over the maxval.
    AboveMaxval,
    // Bytes follow the last sample.
    LeftOver,
    // There is not enough memory.
    NoMemory,
    // A window does not lie inside the picture.
    NoWindow,
}

// Whether there are as many as wanted, of samples or bytes.
pub(crate) fn check_len(len: usize, wanted: usize) -> Result<(), Fault>
    ensures { LengthChecked len wanted result }
{
    match len.cmp(&wanted) {
        Ordering::Less => Err(Fault::CutShort),
        Ordering::Equal => Ok(()),
        Ordering::Greater => Err(Fault::LeftOver),
    }
}

impl Fault {
    // What is shown.
    fn text(self) -> &'static str
        ensures { result.now ≡ fault_text self }
    {
        match self {
            Fault::NotPgm => "not a PGM file: it does not begin with P5",
            Fault::CutShort => "the file ends before the picture is whole",
            Fault::NoNumber => "the header has something else where a number must stand",
            Fault::ZeroSize => "the width or the height is 0",
            Fault::BadMaxval => "the maxval is not between 1 and 65535",
            Fault::AboveMaxval => "a sample is over the maxval",
            Fault::LeftOver => "bytes follow the last sample",
            Fault::NoMemory => "there is not enough memory",
            Fault::NoWindow => "the window does not lie inside the picture",
        }
    }
}

impl From<AllocError> for Fault {
    ghost from_gives = { λ _ r. r ≡ NoMemory };

    fn from(_e: AllocError) -> Fault {
        Self::NoMemory
    }
}

impl fmt::Display for Fault {
    ghost output = { λ f. Some (fault_text f) };

    fn fmt<W: fmt::Write>(&self, f: &mut fmt::Formatter<W>) -> fmt::Result {
        f.write_str(self.text())
    }
}

impl Error for Fault {}
