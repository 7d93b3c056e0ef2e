//! Runs the commands of cases.txt, one on each line, and prints each with what comes of it.
#![tactic(auto)]

use runner::answer::Answer;
use runner::command::command;
use std::alloc::{AllocError, Global};
use std::{fs, io};

fn words(heap: Global, line: &str) -> Result<Vec<String>, AllocError> {
    let mut words = Vec::new(heap);
    for word in line.split_whitespace() {
        words.push(String::from_str(heap, word)?)?;
    }
    Ok(words)
}

fn show(rt: &HostRuntime, line: &str) -> io::Result<()> {
    println!(rt; "> run {line}")?;
    let words = words(rt.alloc(), line)?;
    match command(rt, &words) {
        Ok(Answer { note, outcome }) => {
            let (Ok(text) | Err(text)) = outcome;
            print!(rt; "{note}{text}")
        }
        Err(stop) => println!(rt; "{stop}"),
    }
}

fn main(rt: HostRuntime) -> io::Result<()> {
    let cases = fs::read_to_string(&rt, "cases.txt")?;
    for line in cases.lines() {
        show(&rt, line)?;
    }
    Ok(())
}
