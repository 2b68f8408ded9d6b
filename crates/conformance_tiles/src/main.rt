// Runs the transform on whole tiles that another implementation computed, on random tiles under labels beside a plain
// implementation of this crate's own, and random scripts of a tile's calls beside a reference tile. Prints what came of it, and
// ends with an Err where anything differs.
// What both test programs have is the same text in both.
#![tactic(auto)]

mod fault;
mod generator;
mod plain;
mod random;
mod reference;
mod scripts;
mod stages;
mod tally;
#[cfg(test)]
mod tests;
mod tile;
mod told;
mod vector;
mod worked;

use fault::Fault;
use std::fmt::Display;
use tally::Tally;
use vector::run_vector;

// How many random tiles are tried.
const TILES: u32 = 300;

// How many random scripts are tried.
const SCRIPTS: u32 = 400;

// Prints a line: what is right, or what was tried and why it is not right. Whether it is right.
fn report(
    rt: &HostRuntime,
    outcome: Result<(), Fault>,
    right: impl Display + Drop,
    tried: impl Display + Drop,
) -> Result<bool, Fault> {
    match outcome {
        Ok(()) => {
            println!(rt; "{right}")?;
            Ok(true)
        }
        Err(why) => {
            println!(rt; "{tried}: {why}")?;
            Ok(false)
        }
    }
}

// Every vector of the input, a line for each. Whether all were right.
fn vectors(rt: &HostRuntime) -> Result<bool, Fault> {
    let mut right = true;
    for line in rt.lines(rt.alloc()) {
        let line = line?;
        let text = line.as_str().trim();
        if text.is_empty() || text.starts_with('#') {
            continue;
        }
        let head = text.split_once(':').map_or(text, |(head, _)| head.trim());
        right &= report(
            rt,
            run_vector(rt.alloc(), text),
            format_args!("{head}: bands as computed elsewhere, picture back"),
            head,
        )?;
    }
    Ok(right)
}

// The random tiles, in one line. Whether all were right.
fn random_tiles(rt: &HostRuntime) -> Result<bool, Fault> {
    report(
        rt,
        random::run(rt.alloc(), TILES),
        format_args!("{TILES} random tiles under labels: all stages equal, all pictures back"),
        "random tiles under labels",
    )
}

// The random scripts, in one line. Whether all were right.
fn random_scripts(rt: &HostRuntime) -> Result<bool, Fault> {
    let mut tally = Tally::default();
    let outcome = scripts::run(rt.alloc(), SCRIPTS, &mut tally);
    let n = tally.scripts;
    report(
        rt,
        outcome,
        format_args!(
            "{SCRIPTS} random scripts: every answer, stage, state and plane as the reference tile's ({tally})"
        ),
        format_args!("random scripts, after {n} that were right"),
    )
}

fn main(rt: HostRuntime) -> Result<(), Fault> {
    let right = vectors(&rt)? & random_tiles(&rt)? & random_scripts(&rt)?;
    if right { Ok(()) } else { Err(Fault::Failed) }
}
