// Statements that only look at numbers and write them.
ghost use Rattle.std.specs.Prelude.{◌≡◌, true, IfOk, Some, None, MatchResult};
ghost use Rattle.walk.specs.Walking.{first, rest};
ghost use Rattle.eval.specs.Stacking.{top};
ghost use Rattle.exec.specs.Activating.{now_state};
ghost use Rattle.exec.specs.Deeds.{assigns, stores, falsely, action, act_on, Acted, Worked, Tested as IsTested, Untested};

use crate::activation::Activation;
use crate::names;
use crate::stop::Stop;
use eval;
use eval::failure::{Failure, Reason};
use eval::names::Names;
use eval::stacks::Stacks;
use lang::code::{Node, Place};
use std::alloc::AllocError;
use walk;
use walk::name::Name;

// The truth of a condition, and the index behind it.
#[derive(Clone, Copy)]
pub struct Tested {
    pub at: usize,
    pub value: bool,
}

fn check(stacks: &mut Stacks, at: Place) -> Result<(), Failure>
    ensures { MatchResult result (λ _. top stacks.old.truths ≡ Some true) (λ _. falsely (top stacks.old.truths) ≡ true) }
{
    if stacks.truths.pop(at)? {
        Ok(())
    } else {
        Err(Reason::CheckFailed.at(at))
    }
}

impl Activation<'_> {
    // The operations from an index on; gives the index behind them.
    pub(crate) fn work(&self, stacks: &mut Stacks, from: usize) -> Result<usize, AllocError>
        ensures { IfOk result (λ i. Worked self.now.program.now self.now from i stacks.new) }
    {
        stacks.clear();
        let names = Names {
            program: self.program,
            params: self.params,
            locals: self.locals,
            now: self.numbers.as_slice(),
            old: self.olds.as_slice(),
        };
        eval::evaluate(stacks, names, from)
    }

    pub(crate) fn truth(&self, stacks: &mut Stacks, from: usize) -> Result<Tested, Stop>
        ensures { let held = self.now.program.now in MatchResult result (λ t. IsTested held self.now from t.at t.value) (λ s. Untested held self.now from s) }
    {
        let at = self.work(stacks, from)?;
        // The place is never told: behind the operations of a condition there is a truth.
        let value = stacks.truths.pop(Place(0))?;
        Ok(Tested { at, value })
    }

    fn assign_top(&mut self, stacks: &mut Stacks, name: Name<'_>) -> Result<(), Failure>
        ensures { let held = self.old.program.now in MatchResult result (λ _. Acted held self.old self.new (assigns name.entry.text.now) stacks.old) (λ _. act_on (assigns name.entry.text.now) stacks.old (now_state held self.old) ≡ None) }
    {
        let value = stacks.numbers.pop(name.at)?;
        self.assign(name, value)
    }

    fn store_top(&mut self, stacks: &mut Stacks, name: Name<'_>) -> Result<(), Failure>
        ensures { let held = self.old.program.now in MatchResult result (λ _. Acted held self.old self.new (stores name.entry.text.now) stacks.old) (λ _. act_on (stores name.entry.text.now) stacks.old (now_state held self.old) ≡ None) }
    {
        let (place, value) = stacks.numbers.pop_two(name.at);
        let k = place?;
        let v = value?;
        self.store(name, k, v)
    }

    // What the node at an index does with what stands on the stacks.
    pub(crate) fn act(&mut self, stacks: &mut Stacks, at: usize) -> Result<(), Failure>
        ensures { let held = self.old.program.now in MatchResult result (λ _. Acted held self.old self.new (action (first (rest held at))) stacks.old) (λ _. act_on (action (first (rest held at))) stacks.old (now_state held self.old) ≡ None) }
    {
        let program = self.program;
        match walk::at(program, at) {
            Node::Assign(x) => self.assign_top(stacks, Name::at(program, x)),
            Node::Store(x) => self.store_top(stacks, Name::at(program, x)),
            Node::Check(p) => check(stacks, p),
            // The place is never told: in a program that was read nothing else stands here.
            _ => Err(names::undefined(Place(0))),
        }
    }
}
