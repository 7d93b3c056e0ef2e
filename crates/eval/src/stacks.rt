// Two stacks, of numbers and of truths. What failed stands on a stack too: whether it matters is decided by what is done with it.
ghost use Rattle.std.specs.Prelude.{◌≡◌, [], ◌∷◌, OnOk};
ghost use Rattle.std.specs.Result.{result_ok};
ghost use Rattle.eval.specs.Ops.{empty};
ghost use Rattle.eval.specs.Stacking.{top, under, Merged};

use crate::failure::{Failure, Reason};
use lang::code::Place;
use std::alloc::{AllocError, Global};
use std::marker::Model;

// Clauses see each entry, the top first; what failed is none.
#[derive(Drop)]
pub struct Stack<T> {
    items: Vec<Result<T, Failure>>,
}

impl<T> Model for Stack<T> {
    ghost use Rattle.std.specs.Prelude.{List, Option};
    ghost use Rattle.eval.specs.Stacking.{stacked};

    ghost Value = { List (Option T) };

    ghost view = { λ s. stacked s.items.items };
}

impl<T: Drop> Stack<T> {
    pub fn new(heap: Global) -> Stack<T>
        ensures { result ≡ [] }
    {
        Stack {
            items: Vec::new(heap),
        }
    }

    pub fn clear(&mut self)
        ensures { self.new ≡ [] }
    {
        self.items.clear();
    }

    pub fn push(&mut self, x: Result<T, Failure>) -> Result<(), AllocError>
        ensures { OnOk result (self.new ≡ result_ok x ∷ self.old) }
    {
        self.items.push(x)?;
        Ok(())
    }

    // `at`: the place of what wants it.
    pub fn pop(&mut self, at: Place) -> Result<T, Failure>
        ensures value { result_ok result ≡ top self.old }
        ensures after { self.new ≡ under self.old }
    {
        self.items.pop().unwrap_or(Err(Reason::Undefined.at(at)))
    }

    // The two on top, the upper one last.
    pub fn pop_two(&mut self, at: Place) -> (Result<T, Failure>, Result<T, Failure>)
        ensures left { result_ok result.0 ≡ top (under self.old) }
        ensures right { result_ok result.1 ≡ top self.old }
        ensures after { self.new ≡ under (under self.old) }
    {
        let y = self.pop(at);
        let x = self.pop(at);
        (x, y)
    }

    // In place of the two on top, what is made of them.
    pub(crate) fn merge<F>(&mut self, at: Place, f: F) -> Result<(), AllocError>
    where
        F: FnOnce(Result<T, Failure>, Result<T, Failure>) -> Result<T, Failure>,
        requires { F.IsAlwaysCallable f }
        ensures { OnOk result (Merged (F.post f) self.old self.new) }
    {
        let (x, y) = self.pop_two(at);
        self.push(f(x, y))
    }
}

#[derive(Drop)]
pub struct Stacks {
    pub numbers: Stack<u64>,
    pub truths: Stack<bool>,
}

impl Stacks {
    pub fn new(heap: Global) -> Stacks
        ensures { result ≡ empty }
    {
        Stacks {
            numbers: Stack::new(heap),
            truths: Stack::new(heap),
        }
    }

    pub fn clear(&mut self)
        ensures { self.new ≡ empty }
    {
        self.numbers.clear();
        self.truths.clear();
    }
}

#[cfg(test)]
mod tests {
    use super::*;

    // That there was memory is said by no contract.
    #[test]
    fn gives_back_what_was_pushed(rt: HostRuntime) {
        let mut numbers: Stack<u64> = Stack::new(rt.alloc());
        assert!(rt; numbers.push(Ok(3)).is_ok());
        assert!(rt; numbers.push(Ok(4)).is_ok());
        let (x, y) = numbers.pop_two(Place(0));
        assert_eq!(rt; x.unwrap_or(0), 3);
        assert_eq!(rt; y.unwrap_or(0), 4);
    }
}
