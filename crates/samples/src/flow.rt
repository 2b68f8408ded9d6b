ghost use Rattle.samples.specs.Flows.{flows};
ghost use Rattle.samples.specs.FlowLaws.{flow_lawful, flow_additive};

use crate::sample::{DeltaSample, Sample};

// Where the content of a sample moves: so far to the right, and so far down.
#[derive(Clone, Copy, PartialEq, Eq, Debug)]
pub struct Flow {
    pub dx: i32,
    pub dy: i32,
}

// Each part is joined and taken by itself, as a number.
impl Sample for Flow {
    ghost kind = { flows };

    ghost lawful = { flow_lawful };

    fn nothing() -> Flow {
        Flow { dx: 0, dy: 0 }
    }

    fn join(self, other: Flow) -> Flow {
        Flow {
            dx: self.dx.join(other.dx),
            dy: self.dy.join(other.dy),
        }
    }

    fn take(self, other: Flow) -> Flow {
        Flow {
            dx: self.dx.take(other.dx),
            dy: self.dy.take(other.dy),
        }
    }

    fn known(self) -> Flow {
        self
    }
}

impl DeltaSample for Flow {
    ghost additive = { flow_additive };
}
