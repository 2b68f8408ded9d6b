// What can go wrong in a run.
// What both test programs have is the same text in both.
use geometry::refusal::Refusal;
use std::alloc::AllocError;
use std::io;
use thiserror::Error;

// The first place at which two planes differ.
#[derive(Clone, Copy, PartialEq, Eq, Debug, Error)]
#[error("DIFFERS at place {place}: got {got}, wanted {wanted}")]
pub struct Difference {
    pub place: usize,
    pub got: i32,
    pub wanted: i32,
}

#[derive(Debug, Drop, Error)]
pub enum Fault {
    // one of the crates refused
    #[error(transparent)]
    Refused(#[from] Refusal),
    // a vector is not of the form `x0 y0 x1 y1 levels : samples -> samples`
    #[error("cannot be read")]
    Unreadable,
    #[error(transparent)]
    Differs(#[from] Difference),
    #[error("no memory")]
    Memory(#[from(alloc)] AllocError),
    #[error(transparent)]
    Io(#[from] io::Error),
    // some line that was printed tells of a fault
    #[error("not all is right")]
    Failed,
}

// Whether two planes are the same.
pub fn compare(got: &[i32], wanted: &[i32]) -> Result<(), Fault> {
    if got.len() != wanted.len() {
        return Err(Fault::from(Refusal::WrongLength));
    }
    let mut pairs = got.iter().copied().zip(wanted.iter().copied()).enumerate();
    match pairs.find(|(_, (got, wanted))| got != wanted) {
        Some((place, (got, wanted))) => Err(Fault::from(Difference { place, got, wanted })),
        None => Ok(()),
    }
}
