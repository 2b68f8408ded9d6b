// rufkandu: takes depth plates through the transform, cut at the borders of their label maps.
// What both programs have is the same text in both.
#![tactic(auto)]

mod check;
mod failure;
mod files;
mod replay;

use commands::arguments::{Command, parse};
use failure::Failure;
use std::alloc::{AllocError, Global};
use std::process::ExitCode;
use std::{env, io};

// The words of the command line, the program's name first.
fn words(rt: &HostRuntime) -> io::Result<Vec<String>> {
    Ok(env::args(rt)?.collect(rt.alloc())?)
}

// The words after the program's name.
fn after_name<'a>(heap: Global, words: &'a [String]) -> Result<Vec<&'a str>, AllocError> {
    words.iter().skip(1).map(|word| word.as_str()).collect(heap)
}

fn run<'a>(rt: &HostRuntime, words: &'a [String]) -> Result<(), Failure<'a>> {
    let texts = after_name(rt.alloc(), words)?;
    match parse(texts.as_slice())? {
        Command::Check(job) => check::check(rt, job),
        Command::Replay(replay) => replay::replay(rt, replay),
    }
}

fn main(rt: HostRuntime) -> ExitCode {
    let Ok(words) = words(&rt) else {
        let _ = eprintln!(rt; "rufkandu: the arguments cannot be read");
        return ExitCode::FAILURE;
    };
    match run(&rt, words.as_slice()) {
        Ok(()) => ExitCode::SUCCESS,
        // The transcript ends with the call.
        Err(Failure::NotAllowed) => ExitCode::FAILURE,
        Err(why) => {
            let _ = eprintln!(rt; "rufkandu: {why}");
            ExitCode::FAILURE
        }
    }
}
