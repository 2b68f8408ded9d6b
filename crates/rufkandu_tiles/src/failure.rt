// Why a run stops.
// What both programs have is the same text in both.
use commands::arguments::Usage;
use geometry::refusal::Refusal;
use netpbm::Fault;
use std::alloc::AllocError;
use std::io;
use thiserror::Error;
use tiles::Unplayed;

#[derive(Debug, Drop, Error)]
pub enum Failure<'a> {
    #[error(transparent)]
    Arguments(#[from] Usage<'a>),
    // A file that cannot be read, by its name.
    #[error("{0}: {1}")]
    Unreadable(&'a str, io::Error),
    // A file that is no picture, by its name.
    #[error("{0}: {1}")]
    Picture(&'a str, Fault),
    // A line of a script that is no call: the script's name and the line's number.
    #[error("{0}: line {1} is no call")]
    Script(&'a str, usize),
    // A label map, by its name, of another size than the plate.
    #[error("{0}: the label map has another size than the plate")]
    OtherSize(&'a str),
    // A tile whose frame is refused.
    #[error(transparent)]
    Tile(#[from] Refusal),
    #[error("there is not enough memory")]
    Memory(#[from(alloc)] AllocError),
    // Standard output takes no more.
    #[error("standard output: {0}")]
    Output(#[from] io::Error),
    // So many samples did not come back.
    #[error("{0} samples did not come back")]
    Differs(usize),
    // A call of the script that the tile's state does not allow.
    #[error("the tile's state does not allow the call")]
    NotAllowed,
}

impl From<Unplayed> for Failure<'_> {
    fn from(why: Unplayed) -> Self {
        match why {
            Unplayed::Refused(why) => Failure::from(why),
            Unplayed::NoMemory => Failure::from(AllocError),
        }
    }
}
