// What a source says of the two gaps of a point on a line: the one before it and the one after it.
use crate::wholeness::Wholeness;

#[derive(Clone, Copy, Default)]
pub struct Flags {
    pub before: Wholeness,
    pub after: Wholeness,
}
