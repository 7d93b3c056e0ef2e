// What a run comes to.
ghost use Rattle.std.specs.Prelude.{◌≡◌};
ghost use Rattle.exec.specs.declared.outcome.Refusal.TheVariants.{Memory};

use eval::failure::Failure;
use std::alloc::{AllocError, AllocFailed};

// The numbers of parameters and locals at the end, and how many choices were taken.
#[derive(Drop)]
pub struct Ended {
    pub numbers: Vec<u64>,
    pub taken: usize,
}

#[derive(Drop)]
pub enum Outcome {
    Ended(Ended),
    Failed(Failure),
    // the fuel was used up
    Late,
}

// Why a run is not begun, or not finished.
#[derive(Clone, Copy, Debug, PartialEq, Eq)]
pub enum Refusal {
    Memory,
    // no procedure stands at the index
    NoProcedure,
    // its parameters have another count of numbers, or more than can be counted
    Count { wanted: Option<usize> },
    // a number is not one of the width
    NumberTooLarge { index: usize },
}

// By hand, not by a derive: proofs read off `from_gives` what a `?` hands on.
impl From<AllocError> for Refusal {
    ghost from_gives = { λ _ r. r ≡ Memory };

    fn from(_e: AllocError) -> Refusal {
        Refusal::Memory
    }
}

impl<T: Drop> From<AllocFailed<T>> for Refusal {
    ghost from_gives = { λ _ r. r ≡ Memory };

    fn from(_e: AllocFailed<T>) -> Refusal {
        Refusal::Memory
    }
}
