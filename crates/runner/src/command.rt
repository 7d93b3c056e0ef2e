// The whole command, from its words.
use crate::answer::{Answer, answer_to, refused};
use crate::request::{HELP, Request, Run, Stop, requested};
use std::fs;

fn run_file(rt: &HostRuntime, run: &Run<'_>) -> Result<Answer, Stop> {
    let heap = rt.alloc();
    let file = run.file;
    let text = fs::read(rt, file).or_else(|e| refused(format!(in heap; "{file}: {e}")?))?;
    answer_to(heap, run, &text)
}

// What comes of the words behind the program's name.
pub fn command(rt: &HostRuntime, words: &[String]) -> Result<Answer, Stop> {
    let heap = rt.alloc();
    match requested(heap, words)? {
        Request::Help => Ok(Answer {
            note: String::new(heap),
            outcome: Ok(String::from_str(heap, HELP)?),
        }),
        Request::Run(line) => run_file(rt, &line.run(heap)?),
    }
}
