// A grey picture in memory: its samples row by row, each at most the maxval.
ghost use Rattle.std.specs.Prelude.{◌≡◌, ◌*◌, ◌≤◌, true, vec_len};
ghost use Rattle.netpbm.specs.Pictures.{within};

pub mod make;

#[derive(Drop)]
pub struct Raster {
    width: usize,
    height: usize,
    maxval: u16,
    samples: Vec<u16>,
    ghost wide: { 1 ≤ width },
    ghost high: { 1 ≤ height },
    ghost bright: { 1 ≤ maxval },
    ghost whole: { vec_len samples ≡ width * height },
    ghost kept: { within maxval samples.items ≡ true },
}
