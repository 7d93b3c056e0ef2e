// Operations on numbers of a width.
ghost use Rattle.std.specs.Prelude.{◌≡◌, ◌≤◌};
ghost use Rattle.std.specs.Result.{result_ok};
ghost use Rattle.lang.specs.Meaning.{compute, compares};
ghost use Rattle.eval.specs.Numbers.{fitted};

use crate::failure::{Failure, Reason};
use lang::code::Place;
use lang::syntax::{ArithOp, Comparison};
use lang::width::Width;

// The number, if there is one and it is one of the width.
pub fn fitting(width: Width, n: Option<u64>, at: Place, reason: Reason) -> Result<u64, Failure>
    ensures { result_ok result ≡ fitted width.0 n }
{
    n.filter(|m| width.holds(*m)).ok_or(reason.at(at))
}

// Of a width above 64 nothing is said: a sum may be one of the width and no `u64`.
#[tactic(auto, using(crate::proofs::Numbers::checked_fits, crate::proofs::Numbers::difference, crate::proofs::Numbers::quotient), unfolding(lang::specs::Meaning::compute))]
pub fn compute(width: Width, op: ArithOp, x: u64, y: u64, at: Place) -> Result<u64, Failure>
    ensures { width.0 ≤ 64 → result_ok result ≡ compute width.0 op x y }
{
    match op {
        ArithOp::Add => fitting(width, x.checked_add(y), at, Reason::SumTooLarge),
        ArithOp::Sub => x.checked_sub(y).ok_or(Reason::DifferenceBelowZero.at(at)),
        ArithOp::Mul => fitting(width, x.checked_mul(y), at, Reason::ProductTooLarge),
        ArithOp::Div => x.checked_div(y).ok_or(Reason::DivisionByZero.at(at)),
        ArithOp::Rem => x.checked_rem(y).ok_or(Reason::DivisionByZero.at(at)),
    }
}

#[tactic(auto, unfolding(lang::specs::Meaning::compares))]
pub fn compares(comparison: Comparison, x: u64, y: u64) -> bool
    ensures { result ≡ compares comparison x y }
{
    match comparison {
        Comparison::Equal => x == y,
        Comparison::Less => x < y,
        Comparison::AtMost => x <= y,
    }
}
