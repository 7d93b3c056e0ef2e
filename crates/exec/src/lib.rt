// Running a procedure.
#![tactic(auto)]

ghost use Rattle.std.specs.Prelude.{◌≡◌, length, Some, IfOk, MatchResult};
ghost use Rattle.walk.specs.Walking.{rest, declared};
ghost use Rattle.eval.specs.States.{counts};
ghost use Rattle.exec.specs.Outcomes as outcomes;
ghost use Rattle.exec.specs.Running.{stage};
ghost use Rattle.exec.specs.Starting.{Started};
ghost use Rattle.exec.specs.declared.outcome.Refusal.TheVariants.{Memory};

pub mod activation;
mod calling;
mod choosing;
mod entry;
pub mod frame;
pub mod machine;
mod names;
pub mod next;
mod numbers;
pub mod outcome;
mod parts;
mod passing;
mod running;
mod steps;
pub mod stop;
mod working;

use crate::frame::{Point, Work};
use crate::machine::Machine;
use crate::outcome::{Ended, Outcome, Refusal};
use crate::stop::Stop;
use eval::stacks::Stacks;
use lang::program::Program;
use std::alloc::{AllocError, Global};
use walk;
use walk::procedures::Outline;

// A machine at the beginning of a procedure.
fn start<'p>(
    heap: Global,
    program: &'p Program<'p>,
    o: Outline,
    numbers: &[u64],
    choices: &'p [u64],
) -> Result<Machine<'p>, AllocError>
    requires { length numbers.now ≡ counts (declared (rest program.now o.params)) }
    ensures { IfOk result (λ m. Started program.now o numbers.now choices.now (stage m)) }
{
    let first = Vec::from_slice(heap, numbers)?;
    let running = passing::begin(heap, program, o.params, o.locals, first)?;
    Ok(Machine {
        heap,
        running,
        frames: Vec::new(heap),
        stacks: Stacks::new(heap),
        choices,
    })
}

// What the machine comes to.
fn finish(machine: Machine<'_>, begin: Work) -> Result<Outcome, Refusal>
    ensures { MatchResult result (λ o. outcomes.Finally (stage machine.entry) (Some begin) o) (λ e. e ≡ Memory) }
{
    let given = machine.choices.len();
    let mut last = machine;
    match last.drive(begin) {
        Ok(()) => Ok(Outcome::Ended(Ended {
            taken: given - last.choices.len(),
            numbers: last.running.numbers,
        })),
        Err(Stop::Failed(failure)) => Ok(Outcome::Failed(failure)),
        Err(Stop::Late) => Ok(Outcome::Late),
        Err(Stop::Memory) => Err(Refusal::Memory),
    }
}

// Runs the procedure at an index, with numbers for its parameters, with so much fuel.
pub fn run(
    heap: Global,
    program: &Program<'_>,
    procedure: usize,
    numbers: &[u64],
    choices: &[u64],
    fuel: u64,
) -> Result<Outcome, Refusal>
    ensures { MatchResult result (λ o. outcomes.Ran program.now procedure numbers.now choices.now fuel o) (λ e. outcomes.Refused program.now procedure numbers.now e) }
{
    let o = entry::check(program, procedure, numbers)?;
    if fuel == 0 {
        return Ok(Outcome::Late);
    }
    let machine = start(heap, &*program, o, numbers, choices)?;
    let begin = Work::Block(Point {
        at: o.body,
        fuel: fuel - 1,
    });
    finish(machine, begin)
}

// Is what the procedure at an index asks for so, with numbers for its parameters?
pub fn holds_before(
    heap: Global,
    program: &Program<'_>,
    procedure: usize,
    numbers: &[u64],
) -> Result<bool, Refusal>
    ensures { MatchResult result (λ b. outcomes.Asked program.now procedure numbers.now b) (λ e. outcomes.Refused program.now procedure numbers.now e) }
{
    let o = entry::check(program, procedure, numbers)?;
    let first = Vec::from_slice(heap, numbers)?;
    // No local is known before: nothing is declared at the end of the code.
    let running = passing::begin(heap, &*program, o.params, walk::len(program), first)?;
    let from = walk::skip(program, o.head, 1);
    let mut stacks = Stacks::new(heap);
    match running.truth(&mut stacks, from) {
        Ok(test) => Ok(test.value),
        Err(Stop::Memory) => Err(Refusal::Memory),
        Err(Stop::Failed(_)) => Ok(false),
        Err(Stop::Late) => Ok(false),
    }
}
