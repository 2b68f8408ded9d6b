// What can go wrong in a run.
// What both test programs have is the same text in both.
use crate::told::Told;
use geometry::refusal::Refusal;
use std::alloc::AllocError;
use std::io;
use thiserror::Error;
use tiles::Unplayed;

// The first place at which two planes differ.
#[derive(Clone, Copy, PartialEq, Eq, Debug, Error)]
#[error("DIFFERS at place {place}: got {got}, wanted {wanted}")]
pub struct Difference {
    pub place: usize,
    pub got: i32,
    pub wanted: i32,
}

// The first call of a script of which a tile tells something else.
#[derive(Clone, Copy, Debug, Error)]
#[error("DIFFERS at call {call}: got {got:?}, wanted {wanted:?}")]
pub struct Telling {
    pub call: usize,
    pub got: Told,
    pub wanted: Told,
}

#[derive(Debug, Drop, Error)]
pub enum Fault {
    // one of the crates refused
    #[error(transparent)]
    Refused(#[from] Refusal),
    // a vector is not of the form `x0 y0 x1 y1 levels : samples -> samples`
    #[error("cannot be read")]
    Unreadable,
    #[error(transparent)]
    Differs(#[from] Difference),
    #[error(transparent)]
    TellsOther(#[from] Telling),
    // a list of calls came to so many events, and not to so many
    #[error("{0} calls answered, wanted {1}")]
    Events(usize, usize),
    // a call that the tile's state does not have
    #[error("a call that the state does not allow")]
    NotAllowed,
    #[error("no memory")]
    Memory(#[from(alloc)] AllocError),
    #[error(transparent)]
    Io(#[from] io::Error),
    // some line that was printed tells of a fault
    #[error("not all is right")]
    Failed,
}

impl From<Unplayed> for Fault {
    fn from(e: Unplayed) -> Fault {
        match e {
            Unplayed::Refused(why) => Fault::from(why),
            Unplayed::NoMemory => Fault::from(AllocError),
        }
    }
}

// Whether two planes are the same.
pub fn compare(got: &[i32], wanted: &[i32]) -> Result<(), Fault> {
    if got.len() != wanted.len() {
        return Err(Fault::from(Refusal::WrongLength));
    }
    let mut pairs = got.iter().copied().zip(wanted.iter().copied()).enumerate();
    match pairs.find(|(_, (got, wanted))| got != wanted) {
        Some((place, (got, wanted))) => Err(Fault::from(Difference { place, got, wanted })),
        None => Ok(()),
    }
}

// Whether the same is told of a call.
pub fn compare_told(call: usize, got: Told, wanted: Told) -> Result<(), Fault> {
    if got != wanted {
        return Err(Fault::from(Telling { call, got, wanted }));
    }
    Ok(())
}
