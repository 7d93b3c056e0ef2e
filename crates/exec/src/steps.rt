// Steps of a run: one statement, or a round of a loop.
ghost use Rattle.std.specs.Prelude.{◌≡◌, ◌<◌, Some};
ghost use Rattle.walk.specs.Walking.{first, rest, word};
ghost use Rattle.exec.specs.Deeds.{deed, works, tests, repeats, havocs};
ghost use Rattle.exec.specs.Running.{stage, Goes, Steps};
ghost use Rattle.exec.specs.declared.frame.Work.TheVariants.{Block, Loop};

use crate::frame::{Frame, Point, Work};
use crate::machine::Machine;
use crate::stop::Stop;
use crate::{choosing, frame, numbers, parts};
use lang::code::Place;
use walk;
use walk::name::Name;

impl Machine<'_> {
    // An expression, and what is done with it.
    pub(crate) fn simple(&mut self, here: Point) -> Result<Work, Stop>
        requires fuel { 1 < here.fuel }
        requires next { deed (first (rest self.old.running.program.now here.at)) ≡ works }
        ensures { Goes (stage self.old) (Some (Block here)) (stage self.new) result }
    {
        let program = self.running.program;
        let end = self.running.work(&mut self.stacks, here.at)?;
        self.running.act(&mut self.stacks, end)?;
        Ok(Work::Block(Point {
            at: walk::skip(program, end, 1),
            fuel: here.fuel - 1,
        }))
    }

    // Enters one of the ways of an `if`.
    pub(crate) fn branch(&mut self, here: Point) -> Result<Work, Stop>
        requires fuel { 1 < here.fuel }
        requires next { deed (first (rest self.old.running.program.now here.at)) ≡ tests }
        ensures { Goes (stage self.old) (Some (Block here)) (stage self.new) result }
    {
        let program = self.running.program;
        let from = walk::skip(program, here.at, 1);
        let test = self.running.truth(&mut self.stacks, from)?;
        let ways = parts::ways_at(program, test.at);
        let rest = Frame::Go(Work::Block(Point {
            at: ways.behind,
            fuel: here.fuel - 1,
        }));
        frame::push(&mut self.frames, rest)?;
        Ok(Work::Block(Point {
            at: ways.way(test.value),
            fuel: here.fuel - 2,
        }))
    }

    // Enters a loop.
    pub(crate) fn enter(&mut self, here: Point) -> Result<Work, Stop>
        requires fuel { 1 < here.fuel }
        requires next { deed (first (rest self.old.running.program.now here.at)) ≡ repeats }
        ensures { Goes (stage self.old) (Some (Block here)) (stage self.new) result }
    {
        let rounds = parts::rounds_at(self.running.program, here.at);
        let rest = Frame::Go(Work::Block(Point {
            at: rounds.behind,
            fuel: here.fuel - 1,
        }));
        frame::push(&mut self.frames, rest)?;
        let fuel = here.fuel - 1;
        Ok(Work::Loop(Point { at: here.at, fuel }))
    }

    // A round of a loop, or its end.
    pub(crate) fn round(&mut self, here: Point) -> Result<Option<Work>, Stop>
        ensures { Steps (stage self.old) (Some (Loop here)) (stage self.new) result }
    {
        if here.fuel == 0 {
            return Err(Stop::Late);
        }
        let rounds = parts::rounds_at(self.running.program, here.at);
        let test = self.running.truth(&mut self.stacks, rounds.test)?;
        if !test.value {
            return Ok(None);
        }
        let fuel = here.fuel - 1;
        let again = Frame::Go(Work::Loop(Point { at: here.at, fuel }));
        frame::push(&mut self.frames, again)?;
        Ok(Some(Work::Block(Point {
            at: rounds.body,
            fuel,
        })))
    }

    // Gives a name whatever numbers are chosen.
    pub(crate) fn havoc(&mut self, name: Place, here: Point) -> Result<Work, Stop>
        requires fuel { 1 < here.fuel }
        requires next { deed (first (rest self.old.running.program.now here.at)) ≡ havocs (word self.old.running.program.now name) }
        ensures { Goes (stage self.old) (Some (Block here)) (stage self.new) result }
    {
        let program = self.running.program;
        let slot = self.running.slot(Name::at(program, name))?;
        let values = choosing::chosen(self.heap, program.width, slot.size, self.choices)?;
        let running = &mut self.running;
        numbers::copy(&mut running.numbers, slot.start, values.as_slice());
        self.choices = choosing::behind(self.choices, slot.size);
        Ok(Work::Block(Point {
            at: walk::skip(program, here.at, 1),
            fuel: here.fuel - 1,
        }))
    }
}
