// A refusal of a call that was given a value, and that value, as it was.
use geometry::refusal::Refusal;

#[derive(Drop)]
pub struct Returned<T> {
    pub why: Refusal,
    pub given: T,
}
