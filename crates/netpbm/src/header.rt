// What stands before the samples.
ghost use Rattle.std.specs.Prelude.{◌≡◌, ◌*◌};
ghost use Rattle.netpbm.specs.Parses.{sample_size};
ghost use Rattle.netpbm.specs.Seen.{capped};
ghost use Rattle.netpbm.specs.Depths.{DepthOf, depth_bytes};

#[derive(Clone, Copy)]
pub struct Header {
    pub width: usize,
    pub height: usize,
    pub maxval: u16,
}

impl Header {
    // How many bytes the samples take, or the largest usize where they take more.
    pub fn size(self) -> usize
        ensures { result ≡ capped (capped (self.width * self.height) * sample_size self.maxval) }
    {
        self.width
            .saturating_mul(self.height)
            .saturating_mul(Depth::of(self.maxval).bytes())
    }
}

// How many bytes each sample takes; of two, the most significant stands first.
#[derive(Clone, Copy)]
pub enum Depth {
    One = 1,
    Two = 2,
}

impl Depth {
    pub fn of(maxval: u16) -> Depth
        ensures { DepthOf maxval result }
    {
        if maxval < 256 { Depth::One } else { Depth::Two }
    }

    pub fn bytes(self) -> usize
        ensures { result ≡ depth_bytes self }
    {
        self as usize
    }
}
