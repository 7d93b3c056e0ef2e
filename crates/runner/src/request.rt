// What the words of a command line ask for.
ghost use Rattle.std.specs.Prelude.{◌≡◌, ◌<◌, drop, length, IfOk, MatchResult};
ghost use Rattle.std.specs.Str.Parse.{digits_value, without_leading_plus};

use crate::answer::refused;
use std::alloc::{AllocError, Global};
use thiserror::Error;

pub const HELP: &str = "usage: run FILE PROC NUMBER.. [--choices N,N,..] [--fuel N] [--help]

Reads the program in FILE and runs its procedure PROC.

  NUMBER..          a number for each parameter, in their order; for a row, its
                    numbers one after the other, place 0 first
  --choices N,N,..  what `any` takes, one number after the other, each modulo 2
                    to the width; 0 where they are used up
  --fuel N          how deep the run may go (default 1000000): each statement of
                    a block, each round and each call takes one
  --help            this text

Prints each parameter with its numbers at the end and has status 0. Else the
status is 1, and it prints `failed: line L: why`, or `late` where the fuel was
used up, or, on standard error, what is wrong with the text or the words given.
A precondition that is not so is told in a note, and the run goes on.
";

// Why there is no answer.
#[derive(Debug, Drop, Error)]
pub enum Stop {
    #[error("out of memory")]
    Memory(#[from(alloc)] AllocError),
    // a message for whoever asked
    #[error("{0}")]
    Refused(String),
}

#[derive(Drop)]
pub enum Request {
    Help,
    Run(CommandLine),
}

#[derive(Drop)]
pub struct CommandLine {
    // FILE PROC NUMBER.., as far as they are given
    pub words: Vec<String>,
    pub choices: Vec<u64>,
    pub fuel: u64,
}

// A procedure of the program in a file, to be run on these numbers.
#[derive(Clone, Copy)]
pub struct Run<'a> {
    pub file: &'a str,
    pub procedure: &'a str,
    // as they are written
    pub numbers: &'a [String],
    pub choices: &'a [u64],
    pub fuel: u64,
}

impl CommandLine {
    // What is to be run, if a file and a procedure are given.
    pub fn run(&self, heap: Global) -> Result<Run<'_>, Stop>
        ensures { MatchResult result (λ r. r.numbers.now ≡ drop 2 self.now.words.items) (λ _. length self.now.words.items < 2) }
    {
        match self.words.as_slice() {
            [] => refused(String::from_str(heap, "expected FILE PROC NUMBER.., or --help")?),
            [_] => {
                refused(String::from_str(heap, "expected PROC NUMBER.. behind FILE, or --help")?)
            }
            [file, procedure, numbers @ ..] => Ok(Run {
                file: file.as_str(),
                procedure: procedure.as_str(),
                numbers,
                choices: self.choices.as_slice(),
                fuel: self.fuel,
            }),
        }
    }
}

// The number that a word is written for.
pub fn number(heap: Global, word: &str) -> Result<u64, Stop>
    ensures { IfOk result (λ n. n ≡ digits_value 10 (without_leading_plus word.now)) }
{
    word.parse::<u64>().or_else(|_| {
        refused(format!(in heap; "`{word}` is no number: expected a whole number below 2^64")?)
    })
}

fn add_choices(heap: Global, choices: &mut Vec<u64>, list: &str) -> Result<(), Stop> {
    for part in list.split(',') {
        choices.push(number(heap, part)?)?;
    }
    Ok(())
}

// The word behind an option.
fn behind<'a>(
    heap: Global,
    option: &str,
    next: Option<&'a String>,
    wanted: &str,
) -> Result<&'a str, Stop> {
    match next {
        Some(word) => Ok(word.as_str()),
        None => refused(format!(in heap;
            "{option} is the last word: expected {wanted} behind it"
        )?),
    }
}

// What these words ask for, without the program's own name.
pub fn requested(heap: Global, words: &[String]) -> Result<Request, Stop> {
    let mut help = false;
    let mut plain = Vec::new(heap);
    let mut choices = Vec::new(heap);
    let mut fuel = 1_000_000;
    let mut words = words.iter();
    while let Some(word) = words.next() {
        match word.as_str() {
            "--help" => help = true,
            "--choices" => {
                let list = behind(heap, word.as_str(), words.next(), "numbers with commas")?;
                add_choices(heap, &mut choices, list)?;
            }
            "--fuel" => {
                fuel = number(heap, behind(heap, word.as_str(), words.next(), "a number")?)?;
            }
            option if option.starts_with("--") => {
                return refused(format!(in heap;
                    "`{option}` is no option: expected --choices, --fuel or --help"
                )?);
            }
            word => plain.push(String::from_str(heap, word)?)?,
        }
    }
    if help {
        return Ok(Request::Help);
    }
    Ok(Request::Run(CommandLine {
        words: plain,
        choices,
        fuel,
    }))
}
