//! The words of the program, and what they ask for.
#![tactic(auto)]

mod command;
mod grammar;
mod numbers;

pub use command::Command;
