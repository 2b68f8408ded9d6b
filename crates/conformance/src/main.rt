// Runs the transform on whole tiles that another implementation computed, and on random tiles under labels beside a plain
// implementation of this crate's own. Prints what came of it, and ends with an Err where anything differs.
// What both test programs have is the same text in both.
#![tactic(auto)]

mod fault;
mod generator;
mod plain;
mod random;
mod stages;
#[cfg(test)]
mod tests;
mod vector;
mod worked;

use fault::Fault;
use std::fmt::Display;
use vector::run_vector;

// How many random tiles are tried.
const TILES: u32 = 300;

// Prints a line: what is right, or what was tried and why it is not right. Whether it is right.
fn report(
    rt: &HostRuntime,
    outcome: Result<(), Fault>,
    right: impl Display + Drop,
    tried: impl Display + Drop,
) -> Result<bool, Fault> {
    match outcome {
        Ok(()) => {
            println!(rt; "{right}")?;
            Ok(true)
        }
        Err(why) => {
            println!(rt; "{tried}: {why}")?;
            Ok(false)
        }
    }
}

// Every vector of the input, a line for each. Whether all were right.
fn vectors(rt: &HostRuntime) -> Result<bool, Fault> {
    let mut right = true;
    for line in rt.lines(rt.alloc()) {
        let line = line?;
        let text = line.as_str().trim();
        if text.is_empty() || text.starts_with('#') {
            continue;
        }
        let head = text.split_once(':').map_or(text, |(head, _)| head.trim());
        right &= report(
            rt,
            run_vector(rt.alloc(), text),
            format_args!("{head}: bands as computed elsewhere, picture back"),
            head,
        )?;
    }
    Ok(right)
}

// The random tiles, in one line. Whether all were right.
fn random_tiles(rt: &HostRuntime) -> Result<bool, Fault> {
    report(
        rt,
        random::run(rt.alloc(), TILES),
        format_args!("{TILES} random tiles under labels: all stages equal, all pictures back"),
        "random tiles under labels",
    )
}

fn main(rt: HostRuntime) -> Result<(), Fault> {
    let right = vectors(&rt)? & random_tiles(&rt)?;
    if right { Ok(()) } else { Err(Fault::Failed) }
}
