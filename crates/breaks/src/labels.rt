// A label map: one label for each finest point of a frame, row by row, over a lent slice.
// A gap is broken exactly when its points stand for finest points with different labels.
ghost use Rattle.std.specs.Prelude.{◌≡◌, length};
ghost use Rattle.geometry.specs.Places.{plane_length};

use geometry::frame::Frame;

pub mod make;

#[derive(Clone, Copy)]
pub struct LabelMap<'a> {
    frame: Frame,
    labels: &'a [u16],
    ghost whole: { length labels.now ≡ plane_length frame.corners },
}
