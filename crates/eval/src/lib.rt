// Evaluation of expressions.
#![tactic(auto)]

ghost use Rattle.std.specs.Prelude.{IfOk};
ghost use Rattle.std.specs.Result.{result_ok};
ghost use Rattle.lang.specs.Instr.{instr};
ghost use Rattle.walk.specs.Walking.{word};
ghost use Rattle.eval.specs.Evaluating.{Walked, Stepped, Counted, Evaluated};

mod apply;
pub mod arith;
pub mod failure;
pub mod names;
mod operands;
mod operations;
mod scope;
pub mod stacks;
mod values;

use crate::failure::{Failure, Reason};
use crate::names::Names;
use crate::scope::{Counter, Scope};
use crate::stacks::Stacks;
use lang::code::{Node, Place};
use std::alloc::AllocError;
use walk::nest::Nest;

// What an `all` says whose body stands at an index: up to the first round that is not true.
#[cycle(rounds_step_perform)]
#[tactic(auto, using(crate::proofs::Walking::no_round, crate::proofs::Walking::round_true, crate::proofs::Walking::unwrapped))]
fn rounds(
    stacks: &mut Stacks,
    scope: &Scope<'_>,
    name: Place,
    limit: u64,
    body: usize,
) -> Result<Result<bool, Failure>, AllocError>
    ensures { IfOk result (λ t. Counted scope.now (word scope.now.names.program.now name) limit body (result_ok t) stacks.old stacks.new) }
{
    for value in 0..limit {
        let counter = Counter {
            program: scope.names.program,
            place: name,
            value,
        };
        let Some(counters) = scope.counters.push(counter) else {
            return Ok(Err(Reason::Undefined.at(name)));
        };
        perform(stacks, &Scope { counters, ..*scope }, body)?;
        let truth = stacks.truths.pop(name);
        if !truth.unwrap_or(false) {
            return Ok(truth);
        }
    }
    Ok(Ok(true))
}

// The operation that begins with a node, in front of an index.
#[cycle(rounds_step_perform)]
#[tactic(auto, using(crate::proofs::Walking::counted_step))]
fn step(
    stacks: &mut Stacks,
    scope: &Scope<'_>,
    node: Node,
    next: usize,
) -> Result<usize, AllocError>
    ensures { IfOk result (λ i. Stepped scope.now (instr scope.now.names.program.now.text.now node) next i stacks.old stacks.new) }
{
    let Some(x) = operands::counter(node) else {
        apply::apply(stacks, scope, node)?;
        return Ok(next);
    };
    let limit = operands::limit(scope.names.program, next);
    let body = walk::skip(scope.names.program, next, 2);
    let truth = rounds(stacks, scope, x, limit, body)?;
    stacks.truths.push(truth)?;
    Ok(operands::all_end(scope.names.program, next))
}

// The operations from an index on, up to the first node that begins none.
#[cycle(rounds_step_perform)]
#[tactic(auto, using(crate::proofs::Walking::gone, crate::proofs::Walking::going_on))]
fn perform(stacks: &mut Stacks, scope: &Scope<'_>, from: usize) -> Result<usize, AllocError>
    ensures { IfOk result (λ i. Walked scope.now from i stacks.old stacks.new) }
{
    // By an index, not an iterator: only what was done tells where the next operation begins.
    let mut i = from;
    while let Some(node) = operands::at(scope.names.program, i) {
        i = step(stacks, scope, node, i + 1)?;
    }
    Ok(i)
}

// Applies the operations from an index on, up to the first node that begins none, and gives its index.
pub fn evaluate(stacks: &mut Stacks, names: Names<'_>, from: usize) -> Result<usize, AllocError>
    ensures { IfOk result (λ i. Evaluated names.entry from i stacks.old stacks.new) }
{
    let scope = Scope {
        names,
        counters: Nest::Zero,
    };
    perform(stacks, &scope, from)
}
