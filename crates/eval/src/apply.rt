// One operation of an expression, other than `all`.
ghost use Rattle.std.specs.Prelude.{◌≡◌, OnOk};
ghost use Rattle.std.specs.Result.{result_ok};
ghost use Rattle.lang.specs.Instr.{instr, number_at};
ghost use Rattle.lang.specs.Meaning.{fits};
ghost use Rattle.eval.specs.Evaluating.{Applied};

use crate::failure::{Failure, Reason};
use crate::scope::Scope;
use crate::stacks::Stacks;
use crate::{arith, operations, values};
use lang::code::{Node, Place};
use lang::program::Program;
use std::alloc::AllocError;

fn number(program: &Program<'_>, at: Place) -> Result<u64, Failure>
    ensures { result_ok result ≡ fits program.now.width.0 (number_at program.now.text.now at.0) }
{
    let n = program.number(at);
    arith::fitting(program.width, Some(n), at, Reason::NumberTooLarge)
}

// The operation of a node; nothing at any other.
pub fn apply(stacks: &mut Stacks, scope: &Scope<'_>, node: Node) -> Result<(), AllocError>
    ensures { OnOk result (Applied scope.now (instr scope.now.names.program.now.text.now node) stacks.old stacks.new) }
{
    let program = scope.names.program;
    let Stacks { numbers, truths } = stacks;
    match node {
        Node::Num(at) => numbers.push(number(program, at)),
        Node::Var(x) => numbers.push(values::number(scope.values(program.name(x)), x)),
        Node::Old(x) => numbers.push(values::number(scope.names.values_old(program.name(x)), x)),
        Node::Binary(op, at) => {
            let (x, y) = numbers.pop_two(at);
            numbers.push(operations::compute(program.width, op, x, y, at))
        }
        Node::Index(x) => {
            let i = numbers.pop(x);
            // Where the place failed, the row is not looked up.
            let row = if i.is_ok() {
                scope.values(program.name(x))
            } else {
                None
            };
            numbers.push(values::element(row, i, x))
        }
        Node::OldIndex(x) => {
            let i = numbers.pop(x);
            let olds = if i.is_ok() {
                scope.names.values_old(program.name(x))
            } else {
                None
            };
            numbers.push(values::element(olds, i, x))
        }
        Node::True(_) => truths.push(Ok(true)),
        Node::Compare(comparison, at) => {
            let (x, y) = numbers.pop_two(at);
            truths.push(operations::compare(comparison, x, y))
        }
        Node::And(at) => truths.merge(at, operations::and),
        Node::Or(at) => truths.merge(at, operations::or),
        Node::Implies(at) => truths.merge(at, operations::implies),
        Node::Not(at) => {
            let x = truths.pop(at);
            truths.push(operations::not(x))
        }
        _ => Ok(()),
    }
}
