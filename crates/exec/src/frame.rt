// What is still to be done.
ghost use Rattle.std.specs.Prelude.{◌≡◌, [], ◌∷◌, MatchOption, OnOk};
ghost use Rattle.exec.specs.Framing.{stack};

use crate::activation::Activation;
use std::alloc::AllocError;

// An index of the code, and the fuel with which a run goes on there.
#[derive(Clone, Copy)]
pub struct Point {
    pub at: usize,
    pub fuel: u64,
}

#[derive(Clone, Copy)]
pub enum Work {
    // the statements from a point on
    Block(Point),
    // the loop at a point
    Loop(Point),
}

#[derive(Drop)]
pub enum Frame<'p> {
    Go(Work),
    // behind a call: whose it was, where its arguments stand, and where the statements go on
    Return {
        caller: Activation<'p>,
        arguments: usize,
        behind: Point,
    },
}

// Not the row's own `push` and `pop`: proofs speak of frames with the last one first.
pub fn push<T: Drop>(frames: &mut Vec<T>, frame: T) -> Result<(), AllocError>
    ensures { OnOk result (stack frames.new ≡ frame ∷ stack frames.old) }
{
    frames.push(frame)?;
    Ok(())
}

pub fn pop<T>(frames: &mut Vec<T>) -> Option<T>
    ensures { MatchOption result (stack frames.old ≡ []) (λ f. stack frames.old ≡ f ∷ stack frames.new) }
{
    frames.pop()
}
