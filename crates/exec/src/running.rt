// A run, step by step.
ghost use Rattle.std.specs.Prelude.{◌≡◌, ◌<◌, Some, None, MatchResult};
ghost use Rattle.walk.specs.Walking.{first, rest};
ghost use Rattle.exec.specs.Deeds.{deed, shown};
ghost use Rattle.exec.specs.Running.{stage, with_frame, Goes, Steps, Advances, Finished, Halted};
ghost use Rattle.exec.specs.declared.frame.Work.TheVariants.{Block};

use crate::frame::{Frame, Point, Work};
use crate::machine::Machine;
use crate::next::Next;
use crate::stop::Stop;
use crate::{frame, names, next};
use lang::code::Place;

impl<'p> Machine<'p> {
    // The statement that comes next. That its fuel is there is asked of each: a type for it would say no more than the clause.
    fn statement(&mut self, next: Next, here: Point) -> Result<Work, Stop>
        requires fuel { 1 < here.fuel }
        requires next { shown self.old.running.program.now (Some next) ≡ deed (first (rest self.old.running.program.now here.at)) }
        ensures { Goes (stage self.old) (Some (Block here)) (stage self.new) result }
    {
        match next {
            Next::Simple => self.simple(here),
            Next::If => self.branch(here),
            Next::While => self.enter(here),
            Next::Call(f) => self.call(f, here),
            Next::Havoc(x) => self.havoc(x, here),
            // The place is never told: in a program that was read a statement stands here.
            Next::Nothing => Err(Stop::Failed(names::undefined(Place(0)))),
        }
    }

    // The statements from a point on: the first of them, or their end.
    fn block(&mut self, here: Point) -> Result<Option<Work>, Stop>
        ensures { Steps (stage self.old) (Some (Block here)) (stage self.new) result }
    {
        if here.fuel == 0 {
            return Err(Stop::Late);
        }
        let Some(next) = next::next_at(self.running.program, here.at) else {
            return Ok(None);
        };
        if here.fuel == 1 {
            return Err(Stop::Late);
        }
        let work = self.statement(next, here)?;
        Ok(Some(work))
    }

    fn step(&mut self, work: Work) -> Result<Option<Work>, Stop>
        ensures { Steps (stage self.old) (Some work) (stage self.new) result }
    {
        match work {
            Work::Block(here) => self.block(here),
            Work::Loop(here) => self.round(here),
        }
    }

    // What a frame says that was the last one.
    fn proceed(&mut self, frame: Frame<'p>) -> Result<Work, Stop>
        ensures { Goes (with_frame frame.entry (stage self.old)) None (stage self.new) result }
    {
        match frame {
            Frame::Go(work) => Ok(work),
            Frame::Return {
                caller,
                arguments,
                behind,
            } => self.give_back(caller, arguments, behind),
        }
    }

    // What the last frame says; nothing where none is left, and the run has ended.
    fn resume(&mut self) -> Result<Option<Work>, Stop>
        ensures { Advances (stage self.old) None (stage self.new) result }
    {
        let Some(frame) = frame::pop(&mut self.frames) else {
            return Ok(None);
        };
        let work = self.proceed(frame)?;
        Ok(Some(work))
    }

    // One step on; nothing is left to be done where the run has ended.
    fn advance(&mut self, work: Work) -> Result<Option<Work>, Stop>
        ensures { Advances (stage self.old) (Some work) (stage self.new) result }
    {
        match self.step(work)? {
            Some(next) => Ok(Some(next)),
            None => self.resume(),
        }
    }

    // To the end.
    pub(crate) fn drive(&mut self, start: Work) -> Result<(), Stop>
        ensures { MatchResult result (λ _. Finished (stage self.old) (Some start) (stage self.new)) (λ e. Halted (stage self.old) (Some start) e) }
    {
        let mut work = start;
        while let Some(next) = self.advance(work)? {
            work = next;
        }
        Ok(())
    }
}
