// Why a run goes no further.
ghost use Rattle.std.specs.Prelude.{◌≡◌};
ghost use Rattle.exec.specs.declared.stop.Stop.TheVariants.{Memory, Failed};

use eval::failure::Failure;
use std::alloc::{AllocError, AllocFailed};

#[derive(Clone, Copy)]
pub enum Stop {
    Memory,
    Failed(Failure),
    // the fuel is used up
    Late,
}

// By hand, not by a derive: proofs read off `from_gives` what a `?` hands on.
impl From<AllocError> for Stop {
    ghost from_gives = { λ _ r. r ≡ Memory };

    fn from(_e: AllocError) -> Stop {
        Stop::Memory
    }
}

impl<T: Drop> From<AllocFailed<T>> for Stop {
    ghost from_gives = { λ _ r. r ≡ Memory };

    fn from(_e: AllocFailed<T>) -> Stop {
        Stop::Memory
    }
}

impl From<Failure> for Stop {
    ghost from_gives = { λ e r. r ≡ Failed e };

    fn from(e: Failure) -> Stop {
        Stop::Failed(e)
    }
}
