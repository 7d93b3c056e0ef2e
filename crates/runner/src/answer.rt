// What comes of a request.
ghost use Rattle.std.specs.Prelude.{◌≡◌};

use crate::parameters;
use crate::request::{Run, Stop, number};
use eval::failure::Failure;
use exec;
use exec::outcome::{Outcome, Refusal};
use lang::position::position_of;
use lang::program::Program;
use parse;
use parse::ReadError;
use report::Source;
use sound;
use std::alloc::{AllocError, Global};
use walk::procedures;

#[derive(Drop)]
pub struct Answer {
    // what is told beside the outcome
    pub note: String,
    // what is printed of a run that ended, or of one that failed or is late
    pub outcome: Result<String, String>,
}

pub fn refused<T>(message: String) -> Result<T, Stop>
    ensures { result ≡ Err (Stop.Refused message) }
{
    Err(Stop::Refused(message))
}

fn note(heap: Global, holds: bool) -> Result<String, AllocError> {
    if holds {
        Ok(String::new(heap))
    } else {
        String::from_str(heap, "note: the precondition is not so of these numbers\n")
    }
}

// A run of the procedure at an index.
#[derive(Clone, Copy)]
struct Call<'a> {
    heap: Global,
    program: &'a Program<'a>,
    at: usize,
    run: &'a Run<'a>,
}

impl Call<'_> {
    fn params(&self) -> usize {
        procedures::outline_at(self.program, self.at).params
    }

    // Why it is refused.
    fn refusal<T>(&self, e: Refusal) -> Result<T, Stop> {
        let heap = self.heap;
        match e {
            Refusal::Memory => Err(Stop::Memory(AllocError)),
            Refusal::NoProcedure => {
                refused(String::from_str(heap, "there is no procedure at this place")?)
            }
            Refusal::Count { wanted } => {
                // A count that no `usize` holds is told as the largest.
                let wanted = wanted.unwrap_or(usize::MAX);
                let given = self.run.numbers.len();
                let params = parameters::signature(heap, self.program, self.params())?;
                refused(format!(in heap;
                    "{given} numbers are given: expected {wanted}, for the parameters ({params})"
                )?)
            }
            Refusal::NumberTooLarge { index } => {
                let place = index.saturating_add(1);
                let width = self.program.width;
                refused(format!(in heap;
                    "number {place} is too large: expected numbers of {width} bits"
                )?)
            }
        }
    }

    fn failed(&self, failure: Failure) -> Result<String, AllocError> {
        let line = position_of(self.program.text, failure.at.0).line;
        let reason = failure.reason;
        format!(in self.heap; "failed: line {line}: {reason}\n")
    }

    // What is printed of it.
    fn printed(&self, outcome: Outcome) -> Result<Result<String, String>, Stop> {
        let heap = self.heap;
        match outcome {
            Outcome::Ended(end) => Ok(Ok(parameters::values(
                heap,
                self.program,
                self.params(),
                &end.numbers,
            )?)),
            Outcome::Failed(failure) => Ok(Err(self.failed(failure)?)),
            Outcome::Late => Ok(Err(String::from_str(heap, "late\n")?)),
        }
    }

    fn answer(&self) -> Result<Answer, Stop> {
        let Call {
            heap,
            program,
            at,
            run,
        } = *self;
        let numbers: Vec<u64> = run
            .numbers
            .iter()
            .map(|word| number(heap, word.as_str()))
            .try_collect(heap)?;
        let holds = exec::holds_before(heap, program, at, &numbers).or_else(|e| self.refusal(e))?;
        let outcome = exec::run(heap, program, at, &numbers, run.choices, run.fuel).or_else(
            |e| self.refusal(e),
        )?;
        Ok(Answer {
            note: note(heap, holds)?,
            outcome: self.printed(outcome)?,
        })
    }
}

// Where the procedure of that name is.
fn procedure(heap: Global, program: &Program<'_>, name: &str) -> Result<usize, Stop> {
    match procedures::find_named(program, 0, name.as_bytes()) {
        Some(i) => Ok(i),
        None => {
            let names = parameters::procedure_names(heap, program)?;
            refused(format!(in heap; "there is no procedure `{name}`: expected one of {names}")?)
        }
    }
}

// How many words reading a text of so many bytes takes.
fn words_for(bytes: usize) -> usize {
    bytes.saturating_mul(6).saturating_add(64)
}

// Reads the text of the file that is asked for, and runs the procedure.
pub fn answer_to(heap: Global, run: &Run<'_>, text: &[u8]) -> Result<Answer, Stop> {
    let source = Source {
        file: run.file,
        text,
    };
    let mut words = vec![in heap; 0u64; words_for(text.len())]?;
    // A match, since nothing is known of what a closure returns that holds the source.
    let program = match parse::read(text, &mut words) {
        Ok(program) => program,
        Err(ReadError::NoText(e)) => return refused(source.no_text(heap, e)?),
        Err(ReadError::Few) => return Err(Stop::Memory(AllocError)),
    };
    // Likewise no closure, which would hold the source.
    if let Err(e) = sound::check(&program) {
        return refused(source.not_sound(heap, e)?);
    }
    let at = procedure(heap, &program, run.procedure)?;
    let call = Call {
        heap,
        program: &program,
        at,
        run,
    };
    call.answer()
}
