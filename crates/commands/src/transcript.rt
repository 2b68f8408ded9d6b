// What is printed of a script that was played.
ghost use Rattle.std.specs.Prelude.{Some};
ghost use Rattle.std.specs.Fmt.{signed_decimal};
ghost use Rattle.tiles.specs.Texts.{reply_text};

use std::fmt;
use tiles::{Call, Event, Reply};

// What a call answered, by itself.
#[derive(Clone, Copy)]
pub struct ReplyText(pub Reply<i32>);

impl fmt::Display for ReplyText {
    ghost output = { λ t. reply_text (λ v. Some (signed_decimal v)) t.0 };

    fn fmt<W: fmt::Write>(&self, f: &mut fmt::Formatter<W>) -> fmt::Result {
        write!(f, "{}", self.0)
    }
}

// The calls of a script, and the events of those that were made: a line for each of them, and one for the call that was not allowed.
#[derive(Clone, Copy)]
pub struct Transcript<'a> {
    pub calls: &'a [Call<i32>],
    pub events: &'a [Event<i32>],
}

impl fmt::Display for Transcript<'_> {
    fn fmt<W: fmt::Write>(&self, f: &mut fmt::Formatter<W>) -> fmt::Result {
        for (call, event) in self.calls.iter().zip(self.events.iter()) {
            writeln!(f, "{call}: {event}")?;
        }
        match self.calls.get(self.events.len()) {
            Some(call) => writeln!(f, "{call}: not allowed"),
            None => Ok(()),
        }
    }
}

// A plane by its rows, one a line.
#[derive(Clone, Copy)]
pub struct Rows<'a> {
    pub plane: &'a [i32],
    pub width: usize,
}

fn write_row<W: fmt::Write>(row: &[i32], f: &mut fmt::Formatter<W>) -> fmt::Result {
    for (k, v) in row.iter().enumerate() {
        if k > 0 {
            f.write_str(" ")?;
        }
        write!(f, "{v}")?;
    }
    f.write_str("\n")
}

impl fmt::Display for Rows<'_> {
    fn fmt<W: fmt::Write>(&self, f: &mut fmt::Formatter<W>) -> fmt::Result {
        for row in self.plane.chunks(self.width.max(1)) {
            write_row(row, f)?;
        }
        Ok(())
    }
}
