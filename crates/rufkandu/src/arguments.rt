// What the command line asks for, by the one command that there is.
ghost use Rattle.rufkandu.specs.Commands.{ParseOf, CheckOf};

use commands::arguments::{Action, Job, Usage, plated};
use std::fmt;

// What is wrong with the arguments, in the words of a program that only checks.
#[derive(Clone, Copy, PartialEq, Eq, Debug)]
pub struct CheckUsage<'a>(pub Usage<'a>);

impl fmt::Display for CheckUsage<'_> {
    fn fmt<W: fmt::Write>(&self, f: &mut fmt::Formatter<W>) -> fmt::Result {
        match self.0 {
            Usage::NoCommand => f.write_str(
                "usage: rufkandu check PLATE.pgm --levels N [--labels LABELS.pgm] [--at X Y]",
            ),
            Usage::OtherCommand(word) => write!(f, "unknown command {word}: the only one is check"),
            Usage::NoPlate => f.write_str("the plate is missing: check PLATE.pgm --levels N"),
            Usage::OtherFlag(word) => write!(
                f,
                "unknown flag {word}: there are --levels, --labels and --at"
            ),
            usage => write!(f, "{usage}"),
        }
    }
}

// The job that the words after the program's name say. Where a flag stands twice, the last counts.
pub fn parse<'a>(words: &[&'a str]) -> Result<Job<'a>, Usage<'a>>
    ensures words { ParseOf words.now result }
    ensures flags { CheckOf words.now result }
{
    let [command, words @ ..] = words else {
        return Err(Usage::NoCommand);
    };
    if *command != "check" {
        return Err(Usage::OtherCommand(*command));
    }
    let (job, _) = plated(Action::Check, words)?;
    Ok(job)
}
