// The calls of a tile, as a list of calls has them. The points are finest points.
ghost use Rattle.tiles.specs.Texts.{call_text};

use geometry::point::Point;
use std::fmt;

#[derive(Clone, Copy, PartialEq, Eq, Debug)]
pub enum Call<K> {
    Put(Point, K),
    Read(Point),
    Begin,
    Down,
    Up,
    Finish,
}

impl<K: fmt::Display> fmt::Display for Call<K> {
    ghost output = { call_text K.output };

    fn fmt<W: fmt::Write>(&self, f: &mut fmt::Formatter<W>) -> fmt::Result {
        match self {
            Call::Put(at, v) => write!(f, "put {} {} {v}", at.x, at.y),
            Call::Read(at) => write!(f, "read {} {}", at.x, at.y),
            Call::Begin => f.write_str("begin"),
            Call::Down => f.write_str("down"),
            Call::Up => f.write_str("up"),
            Call::Finish => f.write_str("finish"),
        }
    }
}
