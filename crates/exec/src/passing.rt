// Arguments: from the caller to the procedure, and back.
ghost use Rattle.std.specs.Prelude.{◌≡◌, true, ◌++◌, length, replicate, IfOk, OnOk, MatchResult, ◌≢◌};
ghost use Rattle.lang.specs.Soundness.{same_sizes};
ghost use Rattle.walk.specs.Walking.{rest, declared, passed};
ghost use Rattle.eval.specs.States.{counts};
ghost use Rattle.exec.specs.Activating.{names, params, Among};
ghost use Rattle.exec.specs.Passing as specs;

use crate::activation::Activation;
use crate::stop::Stop;
use crate::{names, numbers};
use eval::failure::Failure;
use lang::program::Program;
use std::alloc::{AllocError, Global};
use walk::name::Name;
use walk::{arguments, declarations};

// One after the other, so that the row doubles as it grows: room asked for by each declaration would leave it up to twice as large.
fn push_zeros(numbers: &mut Vec<u64>, count: usize) -> Result<(), AllocError>
    ensures { OnOk result (numbers.new.items ≡ numbers.old.items ++ replicate count 0) }
{
    for _ in 0..count {
        numbers.push(0)?;
    }
    Ok(())
}

// Zeros for all that is declared from an index on.
fn zero_locals(numbers: &mut Vec<u64>, program: &Program<'_>, from: usize) -> Result<(), AllocError>
    ensures { OnOk result (numbers.new.items ≡ numbers.old.items ++ replicate (counts (declared (rest program.now from))) 0) }
{
    for d in declarations::from(&*program, from) {
        push_zeros(numbers, d.shape.count())?;
    }
    Ok(())
}

// A procedure that begins, with the numbers of its parameters.
pub fn begin<'p>(
    heap: Global,
    program: &'p Program<'p>,
    params: usize,
    locals: usize,
    numbers: Vec<u64>,
) -> Result<Activation<'p>, AllocError>
    requires { length numbers.items ≡ counts (declared (rest program.now params)) }
    ensures { IfOk result (λ a. specs.Begun program.now params locals numbers.items a) }
{
    let olds = Vec::from_slice(heap, numbers.as_slice())?;
    let mut all = numbers;
    zero_locals(&mut all, program, locals)?;
    Ok(Activation {
        program,
        params,
        locals,
        numbers: all,
        olds,
    })
}

// The numbers of the arguments, one after the other.
pub fn pass(
    heap: Global,
    caller: &Activation<'_>,
    arguments: usize,
    params: usize,
) -> Result<Vec<u64>, Stop>
    ensures { let held = caller.now.program.now in MatchResult result (λ v. specs.Passed held caller.now arguments params v.items) (λ s. specs.Unfit s (same_sizes (names held caller.now) (declared (rest held params)) (passed (rest held arguments)) ≡ true)) }
{
    let mut numbers = Vec::new(heap);
    let mut left = declarations::from(caller.program, params);
    for x in arguments::from(caller.program, arguments) {
        let Some(d) = left.next() else {
            return Err(Stop::Failed(names::undefined(x.at)));
        };
        let values = caller.row(x)?;
        if values.len() != d.shape.count() {
            return Err(Stop::Failed(names::undefined(x.at)));
        }
        numbers.extend_from_slice(values)?;
    }
    match left.next() {
        Some(d) => Err(Stop::Failed(names::undefined(d.place))),
        None => Ok(numbers),
    }
}

// The numbers of a parameter, for those of an argument.
fn hand(
    caller: &mut Activation<'_>,
    callee: &Activation<'_>,
    param: Name<'_>,
    argument: Name<'_>,
) -> Result<(), Failure>
    ensures { let held = caller.old.program.now in let other = callee.now.program.now in MatchResult result (λ _. specs.Handed held other caller.old callee.now caller.new param.entry.text.now argument.entry.text.now) (λ _. specs.Unlike (names other callee.now) (names held caller.old) param.entry.text.now argument.entry.text.now) }
{
    let values = callee.row(param)?;
    let slot = caller.slot(argument)?;
    if values.len() != slot.size {
        return Err(names::undefined(argument.at));
    }
    numbers::copy(&mut caller.numbers, slot.start, values);
    Ok(())
}

// The numbers of the parameters, for those of the arguments.
pub fn hand_back(
    caller: &mut Activation<'_>,
    callee: &Activation<'_>,
    arguments: usize,
) -> Result<(), Failure>
    ensures { let held = caller.old.program.now in let other = callee.now.program.now in MatchResult result (λ _. specs.HandedBack held other caller.old callee.now caller.new arguments) (λ _. Among (names other callee.now) (params other callee.now) → same_sizes (names held caller.old) (params other callee.now) (passed (rest held arguments)) ≢ true) }
{
    let mut left = declarations::from(callee.program, callee.params);
    for x in arguments::from(caller.program, arguments) {
        let Some(d) = left.next() else {
            return Err(names::undefined(x.at));
        };
        hand(caller, callee, d.name(), x)?;
    }
    match left.next() {
        Some(d) => Err(names::undefined(d.place)),
        None => Ok(()),
    }
}
