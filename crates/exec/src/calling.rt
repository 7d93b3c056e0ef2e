// Calls, and what comes behind them.
ghost use Rattle.std.specs.Prelude.{◌≡◌, ◌+◌, ◌<◌, min, Some, None, ◌∷◌, length, MatchResult};
ghost use Rattle.lang.specs.Holding.{code_of};
ghost use Rattle.walk.specs.Walking.{first, rest, word, passed};
ghost use Rattle.exec.specs.Calling.{Prepared, Unprepared};
ghost use Rattle.exec.specs.Deeds.{deed, calls};
ghost use Rattle.exec.specs.Running.{stage, with_frame, Goes};
ghost use Rattle.exec.specs.declared.frame.Frame.TheVariants.{Return};
ghost use Rattle.exec.specs.declared.frame.Work.TheVariants.{Block};

use crate::activation::Activation;
use crate::frame::{Frame, Point, Work};
use crate::machine::Machine;
use crate::stop::Stop;
use crate::{frame, names, passing};
use lang::code::Place;
use lang::program::Program;
use std::mem;
use walk;
use walk::{arguments, procedures};

// A procedure that begins, and where its statements stand.
#[derive(Drop)]
pub struct Called<'p> {
    pub callee: Activation<'p>,
    pub body: usize,
}

// Where the statements go on behind the arguments.
fn behind_call(program: &Program<'_>, arguments: usize) -> usize
    ensures { result ≡ min (arguments + length (passed (rest program.now arguments)) + 1) (length (code_of program.now)) }
{
    walk::skip(program, arguments::end(program, arguments), 1)
}

impl<'p> Machine<'p> {
    fn prepare(&self, name: Place, arguments: usize) -> Result<Called<'p>, Stop>
        ensures { let held = self.now.running.program.now in MatchResult result (λ c. Prepared held self.now.running (word held name) arguments c) (λ s. Unprepared held self.now.running (word held name) arguments s) }
    {
        let program = self.running.program;
        let Some(f) = procedures::find(program, 0, name) else {
            return Err(Stop::Failed(names::undefined(name)));
        };
        let o = procedures::outline_at(program, f);
        let numbers = passing::pass(self.heap, &self.running, arguments, o.params)?;
        let callee = passing::begin(self.heap, program, o.params, o.locals, numbers)?;
        Ok(Called {
            callee,
            body: o.body,
        })
    }

    // Begins the procedure that is called.
    pub(crate) fn call(&mut self, name: Place, here: Point) -> Result<Work, Stop>
        requires fuel { 1 < here.fuel }
        requires next { deed (first (rest self.old.running.program.now here.at)) ≡ calls (word self.old.running.program.now name) }
        ensures { Goes (stage self.old) (Some (Block here)) (stage self.new) result }
    {
        let program = self.running.program;
        let arguments = walk::skip(program, here.at, 1);
        let called = self.prepare(name, arguments)?;
        if here.fuel == 2 {
            return Err(Stop::Late);
        }
        let Called { callee, body } = called;
        let caller = mem::replace(&mut self.running, callee);
        let back = Frame::Return {
            caller,
            arguments,
            behind: Point {
                at: behind_call(program, arguments),
                fuel: here.fuel - 1,
            },
        };
        frame::push(&mut self.frames, back)?;
        Ok(Work::Block(Point {
            at: body,
            fuel: here.fuel - 3,
        }))
    }

    // Goes on in the caller, whose frame was the last one.
    pub(crate) fn give_back(
        &mut self,
        caller: Activation<'p>,
        arguments: usize,
        behind: Point,
    ) -> Result<Work, Stop>
        ensures { Goes (with_frame (Return caller.entry arguments behind) (stage self.old)) None (stage self.new) result }
    {
        let mut back = caller;
        passing::hand_back(&mut back, &self.running, arguments)?;
        self.running = back;
        Ok(Work::Block(behind))
    }
}
