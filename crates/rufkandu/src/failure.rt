// Why a run stops.
// What both programs have is the same text in both.
use crate::arguments::CheckUsage;
use commands::arguments::Usage;
use geometry::refusal::Refusal;
use netpbm::Fault;
use std::alloc::AllocError;
use std::io;
use thiserror::Error;

#[derive(Debug, Drop, Error)]
pub enum Failure<'a> {
    #[error("{0}")]
    Arguments(CheckUsage<'a>),
    // A file that cannot be read, by its name.
    #[error("{0}: {1}")]
    Unreadable(&'a str, io::Error),
    // A file that is no picture, by its name.
    #[error("{0}: {1}")]
    Picture(&'a str, Fault),
    // A label map, by its name, of another size than the plate.
    #[error("{0}: the label map has another size than the plate")]
    OtherSize(&'a str),
    // A tile whose frame is refused.
    #[error(transparent)]
    Tile(#[from] Refusal),
    #[error("there is not enough memory")]
    Memory(#[from(alloc)] AllocError),
    // Standard output takes no more.
    #[error("standard output: {0}")]
    Output(#[from] io::Error),
    // So many samples did not come back.
    #[error("{0} samples did not come back")]
    Differs(usize),
}

impl<'a> From<Usage<'a>> for Failure<'a> {
    fn from(usage: Usage<'a>) -> Self {
        Failure::Arguments(CheckUsage(usage))
    }
}
