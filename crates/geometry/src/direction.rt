// The direction of a line of points: along a row x runs, along a column y.
#[derive(Clone, Copy, PartialEq, Eq, Debug)]
pub enum Direction {
    Row,
    Column,
}
