// The frame of a tile. A frame in hand always has sides from 1 to 512, x1 and y1 at most 1,073,741,824 and at most 6 levels.
ghost use Rattle.std.specs.Prelude.{◌+◌, ◌<◌, ◌≤◌};

use crate::corners::Corners;

pub mod make;

#[derive(Clone, Copy)]
pub struct Frame {
    corners: Corners,
    ghost wide: { corners.x0 < corners.x1 },
    ghost high: { corners.y0 < corners.y1 },
    ghost narrow: { corners.x1 ≤ corners.x0 + 512 },
    ghost low: { corners.y1 ≤ corners.y0 + 512 },
    ghost right: { corners.x1 ≤ 1073741824 },
    ghost bottom: { corners.y1 ≤ 1073741824 },
    ghost shallow: { corners.levels ≤ 6 },
}
