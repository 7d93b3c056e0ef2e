// How evaluation fails.
ghost use Rattle.std.specs.Prelude.{◌≡◌};

use lang::code::Place;
use thiserror::Error;

#[derive(Clone, Copy, Debug, PartialEq, Eq, Error)]
pub enum Reason {
    #[error("the written number is too large")]
    NumberTooLarge,
    #[error("the sum is too large")]
    SumTooLarge,
    #[error("the difference is below 0")]
    DifferenceBelowZero,
    #[error("the product is too large")]
    ProductTooLarge,
    #[error("division by 0")]
    DivisionByZero,
    #[error("the place is outside the row")]
    OutsideRow,
    #[error("the check is not so")]
    CheckFailed,
    // no such name or operand; does not happen in a sound program
    #[error("there is no such name")]
    Undefined,
}

// The place of the operator, of the number or of the name.
#[derive(Clone, Copy)]
pub struct Failure {
    pub at: Place,
    pub reason: Reason,
}

impl Reason {
    pub fn at(self, at: Place) -> Failure
        ensures { result ≡ record { at = at; reason = self } }
    {
        Failure { at, reason: self }
    }
}
