// What is asked of the program, and what it tells of a script: the words of its command line, the lines of a script of calls,
// and the lines that are printed of the calls.
#![tactic(auto)]

pub mod arguments;
pub mod script;
#[cfg(test)]
mod tests;
pub mod transcript;
