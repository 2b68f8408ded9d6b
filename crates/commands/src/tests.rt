// What is made of command lines and scripts, on examples.
use crate::arguments::{Action, Command, Job, parse, plated};
use crate::script::{Unread, calls_of};
use crate::transcript::{Rows, Transcript};
use breaks::labels::LabelMap;
use geometry::frame::Frame;
use samples::mean::MeanStep;
use std::alloc::{AllocError, Global};
use std::test::Fail;
use tiles::{State, play};

fn job_text(heap: Global, job: Job) -> Result<String, AllocError> {
    let plate = job.plate;
    let labels = job.labels.unwrap_or("none");
    let levels = job.levels;
    let x = job.at.x;
    let y = job.at.y;
    format!(in heap; "{plate}, labels {labels}, {levels} levels at {x} {y}")
}

// What is said of the words of a command line.
fn said(heap: Global, words: &[&str]) -> Result<String, AllocError> {
    match parse(words) {
        Ok(Command::Check(job)) => job_text(heap, job),
        Ok(Command::Replay(replay)) => {
            let script = replay.script;
            let state = replay.opening;
            let job = job_text(heap, replay.job)?;
            format!(in heap; "{script} as {state} on {job}")
        }
        Err(usage) => format!(in heap; "{usage}"),
    }
}

#[test]
fn arguments(rt: HostRuntime) -> Result<(), Fail> {
    let heap = rt.alloc();
    assert_eq!(rt;
        said(heap, &["show"])?.as_str(),
        "unknown command show: there are check and replay"
    );
    assert_eq!(rt;
        said(heap, &["check", "p"])?.as_str(),
        "--levels is missing"
    );
    assert_eq!(rt;
        said(heap, &["check", "p", "--bands"])?.as_str(),
        "unknown flag --bands: there are --levels, --labels and --at, and for replay --bands"
    );
    assert_eq!(rt;
        said(heap, &["check", "p", "--at", "1"])?.as_str(),
        "a value is missing after --at"
    );
    assert_eq!(rt;
        said(heap, &["check", "p", "--levels", "4294967296"])?.as_str(),
        "--levels takes a number from 0 to 4294967295, and 4294967296 is none"
    );
    assert_eq!(rt;
        said(heap, &["check", "p", "--at", "7", "9", "--levels", "2"])?.as_str(),
        "p, labels none, 2 levels at 7 9"
    );
    Ok(())
}

#[test]
fn replay_arguments(rt: HostRuntime) -> Result<(), Fail> {
    let heap = rt.alloc();
    assert_eq!(rt;
        said(heap, &["replay"])?.as_str(),
        "the script is missing: replay SCRIPT PLATE.pgm --levels N"
    );
    assert_eq!(rt;
        said(heap, &["replay", "s"])?.as_str(),
        "the plate is missing: check PLATE.pgm --levels N, or replay SCRIPT PLATE.pgm --levels N"
    );
    assert_eq!(rt;
        said(
            heap,
            &["replay", "s", "p", "--labels", "l", "--levels", "1"],
        )?
        .as_str(),
        "s as picture on p, labels l, 1 levels at 0 0"
    );
    assert_eq!(rt;
        said(heap, &["replay", "s", "p", "--bands", "--levels", "0"])?.as_str(),
        "s as bands on p, labels none, 0 levels at 0 0"
    );
    Ok(())
}

// What is said of the words of a plate and its flags.
fn plate_said(heap: Global, action: Action, words: &[&str]) -> Result<String, AllocError> {
    match plated(action, words) {
        Ok((job, state)) => {
            let job = job_text(heap, job)?;
            format!(in heap; "{job} as {state}")
        }
        Err(usage) => format!(in heap; "{usage}"),
    }
}

#[test]
fn plates(rt: HostRuntime) -> Result<(), Fail> {
    let heap = rt.alloc();
    assert_eq!(rt;
        plate_said(heap, Action::Check, &[])?.as_str(),
        "the plate is missing: check PLATE.pgm --levels N, or replay SCRIPT PLATE.pgm --levels N"
    );
    assert_eq!(rt;
        plate_said(
            heap,
            Action::Check,
            &["p", "--levels", "3", "--levels", "2"]
        )?
        .as_str(),
        "p, labels none, 2 levels at 0 0 as picture"
    );
    assert_eq!(rt;
        plate_said(heap, Action::Replay, &["p", "--bands", "--levels", "3"])?.as_str(),
        "p, labels none, 3 levels at 0 0 as bands"
    );
    Ok(())
}

// What is printed of a script that is played on a plate of two samples with one level, whose corner is at (4, 2).
fn replayed(heap: Global, state: State, script: &str) -> Result<String, Fail> {
    let calls = match calls_of(heap, script) {
        Ok(calls) => calls,
        Err(Unread::NoCall(line)) => return Ok(format!(in heap; "line {line} is no call")?),
        Err(Unread::NoMemory) => return Err(Fail::new("no memory")),
    };
    let frame = Frame::new(4, 2, 6, 3, 1)?;
    let source = LabelMap::new(frame, &[7, 7])?;
    let mut plane = [10, 30];
    let events = play(
        heap,
        frame,
        state,
        &mut plane,
        &MeanStep,
        &source,
        calls.as_slice(),
    )?;
    let transcript = Transcript {
        calls: calls.as_slice(),
        events: events.as_slice(),
    };
    let rows = Rows {
        plane: &plane,
        width: 2,
    };
    Ok(format!(in heap; "{transcript}{rows}")?)
}

#[test]
fn replays(rt: HostRuntime) -> Result<(), Fail> {
    let heap = rt.alloc();
    assert_eq!(rt;
        replayed(
            heap,
            State::Picture,
            "# a comment\n\nput 5 2 -7\nput 6 2 1\n read 5 2\nbegin\ndown\ndown\nread 4 2\nfinish\nup\nfinish\n",
        )?
        .as_str(),
        "put 5 2 -7: accepted, stage 1, picture\nput 6 2 1: refused 9, stage 1, picture\nread 5 2: sample -7, stage 1, picture\nbegin: accepted, stage 1, bands\ndown: accepted, stage 0, bands\ndown: refused 10, stage 0, bands\nread 4 2: sample 2, stage 0, bands\nfinish: refused 10, stage 0, bands\nup: accepted, stage 1, bands\nfinish: accepted, stage 1, picture\n10 -7\n"
    );
    assert_eq!(rt;
        replayed(heap, State::Bands, "up\nput 4 2 1\nup")?.as_str(),
        "up: accepted, stage 1, bands\nput 4 2 1: not allowed\n-5 25\n"
    );
    assert_eq!(rt;
        replayed(heap, State::Bands, "up\n\nput 4 2\nup")?.as_str(),
        "line 3 is no call"
    );
    Ok(())
}
