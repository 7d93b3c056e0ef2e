//! The command `run`: reads a program, and runs one of its procedures.
#![tactic(auto)]

use runner::answer::Answer;
use runner::command::command;
use std::process::ExitCode;
use std::{env, io};

// The words behind the program's own name.
fn words(rt: &HostRuntime) -> io::Result<Vec<String>> {
    let mut words = Vec::new(rt.alloc());
    for word in env::args(rt)?.skip(1) {
        words.push(word)?;
    }
    Ok(words)
}

fn main(rt: HostRuntime) -> io::Result<ExitCode> {
    let words = words(&rt)?;
    match command(&rt, &words) {
        Ok(Answer { note, outcome }) => {
            eprint!(&rt; "{note}")?;
            let (text, status) = match outcome {
                Ok(text) => (text, ExitCode::SUCCESS),
                Err(text) => (text, ExitCode::FAILURE),
            };
            print!(&rt; "{text}")?;
            Ok(status)
        }
        Err(stop) => {
            eprintln!(&rt; "{stop}")?;
            Ok(ExitCode::FAILURE)
        }
    }
}
