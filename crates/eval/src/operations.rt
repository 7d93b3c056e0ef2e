// Operations on what may have failed. The right side is looked at only if the left does not decide.
ghost use Rattle.std.specs.Prelude.{◌≡◌, ◌≤◌};
ghost use Rattle.std.specs.Result.{result_ok};
ghost use Rattle.eval.specs.Ops.{computed, compared, both_true, either_true, implied, negated};

use crate::arith;
use crate::failure::Failure;
use lang::code::Place;
use lang::syntax::{ArithOp, Comparison};
use lang::width::Width;

pub fn compute(
    width: Width,
    op: ArithOp,
    x: Result<u64, Failure>,
    y: Result<u64, Failure>,
    at: Place,
) -> Result<u64, Failure>
    ensures { width.0 ≤ 64 → result_ok result ≡ computed width.0 op (result_ok x) (result_ok y) }
{
    arith::compute(width, op, x?, y?, at)
}

pub fn compare(
    comparison: Comparison,
    x: Result<u64, Failure>,
    y: Result<u64, Failure>,
) -> Result<bool, Failure>
    ensures { result_ok result ≡ compared comparison (result_ok x) (result_ok y) }
{
    Ok(arith::compares(comparison, x?, y?))
}

pub fn and(x: Result<bool, Failure>, y: Result<bool, Failure>) -> Result<bool, Failure>
    ensures { result_ok result ≡ both_true (result_ok x) (result_ok y) }
{
    if x? { y } else { Ok(false) }
}

pub fn or(x: Result<bool, Failure>, y: Result<bool, Failure>) -> Result<bool, Failure>
    ensures { result_ok result ≡ either_true (result_ok x) (result_ok y) }
{
    if x? { Ok(true) } else { y }
}

pub fn implies(x: Result<bool, Failure>, y: Result<bool, Failure>) -> Result<bool, Failure>
    ensures { result_ok result ≡ implied (result_ok x) (result_ok y) }
{
    if x? { y } else { Ok(true) }
}

pub fn not(x: Result<bool, Failure>) -> Result<bool, Failure>
    ensures { result_ok result ≡ negated (result_ok x) }
{
    Ok(!x?)
}
