// What a call comes to.
ghost use Rattle.std.specs.Prelude.{◌≡◌};
ghost use Rattle.geometry.specs.Refusals.{seen};
ghost use Rattle.tiles.specs.Texts.{reply_text, event_text};
ghost use Rattle.tiles.specs.Views.{reply_answer};

use crate::state::State;
use geometry::refusal::Refusal;
use std::fmt;

// What a call answers: that it is accepted, with the sample that a read tells, or why it is refused.
// A run keeps one for each of its calls. A `Result` of an `Option` would say the same, with two tags where this has one.
#[derive(Clone, Copy, PartialEq, Eq, Debug)]
pub enum Reply<K> {
    Accepted,
    Sample(K),
    Refused(Refusal),
}

impl<K> From<Result<Option<K>, Refusal>> for Reply<K> {
    ghost from_gives = { λ a r. reply_answer r ≡ seen (λ o. o) a };

    fn from(answer: Result<Option<K>, Refusal>) -> Reply<K> {
        match answer {
            Ok(None) => Reply::Accepted,
            Ok(Some(v)) => Reply::Sample(v),
            Err(why) => Reply::Refused(why),
        }
    }
}

impl<K: fmt::Display> fmt::Display for Reply<K> {
    ghost output = { reply_text K.output };

    fn fmt<W: fmt::Write>(&self, f: &mut fmt::Formatter<W>) -> fmt::Result {
        match self {
            Reply::Accepted => f.write_str("accepted"),
            Reply::Sample(v) => write!(f, "sample {v}"),
            Reply::Refused(why) => write!(f, "refused {}", why.number()),
        }
    }
}

// What a call answered, and the tile's stage and state after it.
#[derive(Clone, Copy, PartialEq, Eq, Debug)]
pub struct Event<K> {
    pub reply: Reply<K>,
    pub stage: u32,
    pub state: State,
}

impl<K: fmt::Display> fmt::Display for Event<K> {
    ghost output = { event_text K.output };

    fn fmt<W: fmt::Write>(&self, f: &mut fmt::Formatter<W>) -> fmt::Result {
        write!(f, "{}, stage {}, {}", self.reply, self.stage, self.state)
    }
}
