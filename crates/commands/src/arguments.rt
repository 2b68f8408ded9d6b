// What the command line asks for.
ghost use Rattle.std.specs.Prelude.{◌≡◌, ℕ, ◌⊎◌, length, drop, MatchResult};
ghost use Rattle.commands.specs.declared.arguments.Usage.TheVariants.{NoValue as missing, NotNumber as wrong};
ghost use Rattle.commands.specs.Words.{Word};
ghost use Rattle.commands.specs.Commands.{First, Number, NoNumber, no_flags, Flag, BadFlag, Flagged, Misflagged, Plated, Unplated, Replayed, Unreplayed, ParseOf};

use geometry::point::Point;
use thiserror::Error;
use tiles::State;

// What a run is asked to do with a plate. Only a replay takes `--bands`.
#[derive(Clone, Copy, PartialEq, Eq, Debug)]
pub enum Action {
    Check,
    Replay,
}

// The plate of a run, its label map if there is one, how many levels its tiles have, and where the plate's corner lies.
#[derive(Clone, Copy, PartialEq, Eq, Debug)]
pub struct Job<'a> {
    pub plate: &'a str,
    pub labels: Option<&'a str>,
    pub levels: u32,
    pub at: Point,
}

// A script to be played on the plate's one tile, and the state that the tile is opened in.
#[derive(Clone, Copy, PartialEq, Eq, Debug)]
pub struct Replay<'a> {
    pub script: &'a str,
    pub opening: State,
    pub job: Job<'a>,
}

#[derive(Clone, Copy, PartialEq, Eq, Debug)]
pub enum Command<'a> {
    Check(Job<'a>),
    Replay(Replay<'a>),
}

// What is wrong with the arguments, with the words that it is about.
#[derive(Clone, Copy, PartialEq, Eq, Debug, Error)]
pub enum Usage<'a> {
    #[error("usage: rufkandu check PLATE.pgm --levels N [--labels LABELS.pgm] [--at X Y]\n                 rufkandu replay SCRIPT PLATE.pgm --levels N [--labels LABELS.pgm] [--at X Y] [--bands]")]
    NoCommand,
    #[error("unknown command {0}: there are check and replay")]
    OtherCommand(&'a str),
    #[error("the script is missing: replay SCRIPT PLATE.pgm --levels N")]
    NoScript,
    #[error("the plate is missing: check PLATE.pgm --levels N, or replay SCRIPT PLATE.pgm --levels N")]
    NoPlate,
    #[error("--levels is missing")]
    NoLevels,
    #[error("unknown flag {0}: there are --levels, --labels and --at, and for replay --bands")]
    OtherFlag(&'a str),
    #[error("a value is missing after {0}")]
    NoValue(&'a str),
    #[error("{0} takes a number from 0 to 4294967295, and {1} is none")]
    NotNumber(&'a str, &'a str),
}

// What the flags said so far.
#[derive(Clone, Copy)]
struct Flags<'a> {
    labels: Option<&'a str>,
    levels: Option<u32>,
    at: Point,
    opening: State,
}

// What the flags say where there are none.
fn no_flags<'a>() -> Flags<'a>
    ensures { result ≡ no_flags }
{
    Flags {
        labels: None,
        levels: None,
        at: Point { x: 0, y: 0 },
        opening: State::Picture,
    }
}

// The word after a flag, and the words after that.
fn value<'w, 'a>(flag: &'a str, words: &'w [&'a str]) -> Result<(&'a str, &'w [&'a str]), Usage<'a>>
    ensures { MatchResult result (λ p. First words.now p.0 × (p.1.now ≡ drop 1 words.now)) (λ u. (u ≡ missing flag.entry) × (length words.now ≡ 0)) }
{
    match words {
        [] => Err(Usage::NoValue(flag)),
        [word, rest @ ..] => Ok((*word, rest)),
    }
}

// The number after a flag, and the words after it.
fn number<'w, 'a>(flag: &'a str, words: &'w [&'a str]) -> Result<(u32, &'w [&'a str]), Usage<'a>>
    ensures { MatchResult result (λ p. Number words.now p.0 × (p.1.now ≡ drop 1 words.now)) (λ u. ((u ≡ missing flag.entry) × (length words.now ≡ 0)) ⊎ ((w : Word) × ((u ≡ wrong flag.entry w) × NoNumber words.now w))) }
{
    let (word, rest) = value(flag, words)?;
    let n = word
        .parse::<u32>()
        .map_err(|_| Usage::NotNumber(flag, word))?;
    Ok((n, rest))
}

impl<'a> Flags<'a> {
    // With one flag more, and the words after its values.
    fn and<'w>(
        mut self,
        action: Action,
        flag: &'a str,
        words: &'w [&'a str],
    ) -> Result<(Flags<'a>, &'w [&'a str]), Usage<'a>>
        ensures { MatchResult result (λ p. Flag action flag.now words.now self.entry p.0 p.1.now) (λ u. BadFlag action flag.entry words.now u) }
    {
        match flag {
            "--levels" => {
                let (n, rest) = number(flag, words)?;
                self.levels = Some(n);
                Ok((self, rest))
            }
            "--labels" => {
                let (word, rest) = value(flag, words)?;
                self.labels = Some(word);
                Ok((self, rest))
            }
            "--at" => {
                let (x, after_x) = number(flag, words)?;
                let (y, rest) = number(flag, after_x)?;
                self.at = Point { x, y };
                Ok((self, rest))
            }
            "--bands" if action == Action::Replay => {
                self.opening = State::Bands;
                Ok((self, words))
            }
            _ => Err(Usage::OtherFlag(flag)),
        }
    }

    // With every flag of the words.
    fn and_all(self, action: Action, words: &[&'a str]) -> Result<Flags<'a>, Usage<'a>>
        ensures { MatchResult result (λ g. (n : ℕ) × Flagged action n words.now self.entry g) (λ u. (n : ℕ) × Misflagged action n words.now self.entry u) }
    {
        match words {
            [] => Ok(self),
            [flag, more @ ..] => {
                let (next, rest) = self.and(action, *flag, more)?;
                next.and_all(action, rest)
            }
        }
    }
}

// The plate and the flags that the words after an action say, and the state to open a tile in.
pub fn plated<'a>(action: Action, words: &[&'a str]) -> Result<(Job<'a>, State), Usage<'a>>
    ensures { MatchResult result (λ p. Plated action words.now p.0 p.1) (λ u. Unplated action words.now u) }
{
    let [plate, words @ ..] = words else {
        return Err(Usage::NoPlate);
    };
    let flags = no_flags().and_all(action, words)?;
    let levels = flags.levels.ok_or(Usage::NoLevels)?;
    let job = Job {
        plate: *plate,
        labels: flags.labels,
        levels,
        at: flags.at,
    };
    Ok((job, flags.opening))
}

// The replay that the words after `replay` say.
fn replayed<'a>(words: &[&'a str]) -> Result<Replay<'a>, Usage<'a>>
    ensures { MatchResult result (λ p. Replayed words.now p) (λ u. Unreplayed words.now u) }
{
    let [script, words @ ..] = words else {
        return Err(Usage::NoScript);
    };
    let (job, opening) = plated(Action::Replay, words)?;
    Ok(Replay {
        script: *script,
        opening,
        job,
    })
}

// The command that the words after the program's name say. Where a flag stands twice, the last counts.
pub fn parse<'a>(words: &[&'a str]) -> Result<Command<'a>, Usage<'a>>
    ensures { ParseOf words.now result }
{
    let [command, words @ ..] = words else {
        return Err(Usage::NoCommand);
    };
    match *command {
        "check" => {
            let (job, _) = plated(Action::Check, words)?;
            Ok(Command::Check(job))
        }
        "replay" => Ok(Command::Replay(replayed(words)?)),
        other => Err(Usage::OtherCommand(other)),
    }
}
