// The two states of a tile. A picture's plane holds the picture's samples; the plane of bands holds its transform to their stage.
ghost use Rattle.std.specs.Prelude.{Some};
ghost use Rattle.tiles.specs.Texts.{state_text};

use std::fmt;

#[derive(Clone, Copy, PartialEq, Eq, Debug)]
pub enum State {
    Picture,
    Bands,
}

impl fmt::Display for State {
    ghost output = { λ s. Some (state_text s) };

    fn fmt<W: fmt::Write>(&self, f: &mut fmt::Formatter<W>) -> fmt::Result {
        match self {
            State::Picture => f.write_str("picture"),
            State::Bands => f.write_str("bands"),
        }
    }
}
