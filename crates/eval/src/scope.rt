// The names of which an expression speaks, inside of `all`.
ghost use Rattle.std.specs.Prelude.{◌≡◌, [], ◌∷◌, if◌then◌else◌, Some, None};
ghost use Rattle.std.specs.Option.{option_map, option_or};
ghost use Rattle.lang.specs.Base.{same};
ghost use Rattle.lang.specs.Meaning.{State, values_of};
ghost use Rattle.walk.specs.Nests.{nested};
ghost use Rattle.walk.specs.Walking.{word};
ghost use Rattle.eval.specs.Naming.{bound, inside};

use crate::names::Names;
use lang::code::Place;
use lang::program::Program;
use std::slice;
use walk::nest::Nest;

// What an `all` counts. Its name stands at a place, and is read only where a name is looked for: nothing bounds its length.
#[derive(Clone, Copy)]
pub struct Counter<'a> {
    pub program: &'a Program<'a>,
    pub place: Place,
    pub value: u64,
}

#[derive(Clone, Copy)]
pub struct Scope<'a> {
    pub names: Names<'a>,
    pub counters: Nest<Counter<'a>>,
}

impl Counter<'_> {
    // As a row of one number, if the name is its own.
    fn row(&self, name: &[u8]) -> Option<&[u64]>
        ensures { option_map (λ x. x.now) result ≡ (if same (word self.now.program.now self.now.place) name.now then Some (self.now.value ∷ []) else None) }
    {
        self.program
            .has_name(self.place, name)
            .then_some(slice::from_ref(&self.value))
    }
}

// What a name counts, if it is that of an `all`.
#[tactic(auto, using(crate::proofs::Counting::bound_values))]
fn counted<'a>(counters: &'a Nest<Counter<'_>>, name: &[u8]) -> Option<&'a [u64]>
    ensures { (s : State) → values_of (bound (nested counters.now) s) name.now ≡ option_or (option_map (λ x. x.now) result) (values_of s name.now) }
{
    match counters {
        Nest::Zero => None,
        Nest::One(a) => a.row(name),
        // A match, so that the outer name is read only where the inner one is another.
        Nest::Two(a, b) => match b.row(name) {
            Some(row) => Some(row),
            None => a.row(name),
        },
    }
}

impl Scope<'_> {
    // The numbers of a name: what an `all` counts, or those now.
    pub fn values(&self, name: &[u8]) -> Option<&[u64]>
        ensures { option_map (λ x. x.now) result ≡ values_of (inside self.now) name.now }
    {
        // A match, since nothing is known of what a closure returns that holds a program.
        match counted(&self.counters, name) {
            Some(row) => Some(row),
            None => self.names.values_now(name),
        }
    }
}
