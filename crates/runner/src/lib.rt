// The command `run`: reads a program, and runs one of its procedures.
#![tactic(auto)]

pub mod answer;
pub mod command;
pub mod parameters;
pub mod request;
