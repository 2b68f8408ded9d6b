// What a tile tells of a call.
use tiles::{Event, Reply, State};

// Where two answers differ, they are printed by these names.
#[derive(Clone, Copy, PartialEq, Eq, Debug)]
pub enum Answer {
    Accepted,
    Sample(i32),
    // with the refusal's number
    Refused(u32),
}

// The answer, and the stage and state after the call.
#[derive(Clone, Copy, PartialEq, Eq, Debug)]
pub struct Told {
    pub answer: Answer,
    pub stage: u32,
    pub state: State,
}

impl From<Reply<i32>> for Answer {
    fn from(reply: Reply<i32>) -> Answer {
        match reply {
            Reply::Accepted => Answer::Accepted,
            Reply::Sample(sample) => Answer::Sample(sample),
            Reply::Refused(why) => Answer::Refused(why.number()),
        }
    }
}

impl From<Event<i32>> for Told {
    fn from(event: Event<i32>) -> Told {
        Told {
            answer: Answer::from(event.reply),
            stage: event.stage,
            state: event.state,
        }
    }
}
