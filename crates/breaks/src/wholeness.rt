// What a source says of a gap. A broken gap is one that no step of the transform crosses; what is no gap counts as broken.
// Two names and no `bool`, so that a test says which one it asks for.
#[derive(Clone, Copy, PartialEq, Eq, Default, Debug)]
pub enum Wholeness {
    Whole,
    #[default]
    Broken,
}
