// Reading and writing the names of a procedure that has begun.
ghost use Rattle.std.specs.Prelude.{◌≡◌, ◌+◌, ◌≤◌, length, None, IfOk, MatchResult};
ghost use Rattle.std.specs.Option.{option_map};
ghost use Rattle.std.specs.Result.{result_ok};
ghost use Rattle.lang.specs.Meaning as meaning;
ghost use Rattle.eval.specs.States.{slot_of};
ghost use Rattle.exec.specs.Activating.{names, now_state, Assigned, Stored};

use crate::activation::Activation;
use eval::failure::{Failure, Reason};
use eval::names::{Slot, slot_of};
use lang::code::Place;
use walk::name::Name;

// Does not happen in a sound program.
pub fn undefined(at: Place) -> Failure
    ensures { result ≡ record { at = at; reason = Reason.Undefined } }
{
    Reason::Undefined.at(at)
}

impl Activation<'_> {
    // Where the numbers of a name stand.
    pub(crate) fn slot(&self, name: Name<'_>) -> Result<Slot, Failure>
        ensures found { result_ok result ≡ slot_of (names self.now.program.now self.now) 0 name.entry.text.now }
        ensures within { IfOk result (λ s. s.start + s.size ≤ length self.now.numbers.items) }
    {
        slot_of(self.program, self.params, self.locals, name.text).ok_or(undefined(name.at))
    }

    // The numbers of a name.
    pub(crate) fn row(&self, name: Name<'_>) -> Result<&[u64], Failure>
        ensures { option_map (λ x. x.now) (result_ok result) ≡ meaning.values_of (now_state self.now.program.now self.now) name.entry.text.now }
    {
        let slot = self.slot(name)?;
        Ok(slot.part(self.numbers.as_slice()))
    }

    // Gives a number to a name of one.
    pub(crate) fn assign(&mut self, name: Name<'_>, value: u64) -> Result<(), Failure>
        ensures { let held = self.old.program.now in MatchResult result (λ _. Assigned held self.old self.new name.entry.text.now value) (λ _. meaning.scalar (now_state held self.old) name.entry.text.now ≡ None) }
    {
        let slot = self.slot(name)?;
        if slot.size != 1 {
            return Err(undefined(name.at));
        }
        self.numbers[slot.start] = value;
        Ok(())
    }

    // Gives a number to a place of a row.
    pub(crate) fn store(&mut self, name: Name<'_>, place: u64, value: u64) -> Result<(), Failure>
        ensures { let held = self.old.program.now in MatchResult result (λ _. Stored held self.old self.new name.entry.text.now place value) (λ _. meaning.element (now_state held self.old) name.entry.text.now place ≡ None) }
    {
        let slot = self.slot(name)?;
        if place as usize >= slot.size {
            return Err(Reason::OutsideRow.at(name.at));
        }
        self.numbers[slot.start + place as usize] = value;
        Ok(())
    }
}
