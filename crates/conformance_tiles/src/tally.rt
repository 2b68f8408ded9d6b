// What random scripts came to, counted.
use crate::told::Answer;
use std::fmt;
use tiles::Call;

// Calls that were accepted.
#[derive(Clone, Copy, Default)]
struct Accepted {
    put: u32,
    read: u32,
    begin: u32,
    down: u32,
    up: u32,
    finish: u32,
}

#[derive(Clone, Copy, Default)]
pub struct Tally {
    // the scripts that were right
    pub scripts: u32,
    // the calls that were answered
    calls: u32,
    accepted: Accepted,
    // the refused, by their numbers
    with_9: u32,
    with_10: u32,
    with_11: u32,
    // the scripts that stopped at a call that the state did not allow
    stopped: u32,
}

impl Accepted {
    // The count of such calls.
    fn count(&mut self, call: Call<i32>) -> &mut u32 {
        match call {
            Call::Put(_, _) => &mut self.put,
            Call::Read(_) => &mut self.read,
            Call::Begin => &mut self.begin,
            Call::Down => &mut self.down,
            Call::Up => &mut self.up,
            Call::Finish => &mut self.finish,
        }
    }
}

impl Tally {
    // The count of calls with such an answer.
    fn count(&mut self, call: Call<i32>, answer: Answer) -> Option<&mut u32> {
        match answer {
            Answer::Accepted | Answer::Sample(_) => Some(self.accepted.count(call)),
            Answer::Refused(9) => Some(&mut self.with_9),
            Answer::Refused(10) => Some(&mut self.with_10),
            Answer::Refused(11) => Some(&mut self.with_11),
            Answer::Refused(_) => None,
        }
    }

    pub fn count_call(&mut self, call: Call<i32>, answer: Answer) {
        self.calls = self.calls.saturating_add(1);
        if let Some(count) = self.count(call, answer) {
            *count = count.saturating_add(1);
        }
    }

    pub fn count_script(&mut self, stopped: bool) {
        self.scripts = self.scripts.saturating_add(1);
        self.stopped = self.stopped.saturating_add(u32::from(stopped));
    }
}

impl fmt::Display for Accepted {
    fn fmt<W: fmt::Write>(&self, f: &mut fmt::Formatter<W>) -> fmt::Result {
        let Accepted {
            put,
            read,
            begin,
            down,
            up,
            finish,
        } = *self;
        write!(
            f,
            "{put} put, {read} read, {begin} begin, {down} down, {up} up, {finish} finish"
        )
    }
}

impl fmt::Display for Tally {
    fn fmt<W: fmt::Write>(&self, f: &mut fmt::Formatter<W>) -> fmt::Result {
        let Tally {
            calls,
            accepted,
            with_9,
            with_10,
            with_11,
            stopped,
            ..
        } = *self;
        write!(
            f,
            "{calls} calls; accepted {accepted}; refused {with_9} with 9, {with_10} with 10, {with_11} with 11; stopped {stopped} scripts at a call not allowed"
        )
    }
}
