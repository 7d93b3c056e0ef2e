// The names that an expression speaks of, with their numbers.
ghost use Rattle.std.specs.Prelude.{◌≡◌, ◌+◌, ◌^◌, ◌<◌, ◌≤◌, length, take, drop};
ghost use Rattle.walk.specs.Walking.{rest, declared};
ghost use Rattle.eval.specs.States.{counts, slot_of, both, Sized};

use lang::program::Program;
use walk::declarations;

// Where the numbers of a name stand. A start and a size, as in the definitions, and no range.
#[derive(Clone, Copy)]
pub struct Slot {
    pub start: usize,
    pub size: usize,
}

// params, locals: where the declarations begin in the code. old: the numbers of the parameters at the procedure's beginning.
#[derive(Clone, Copy)]
pub struct Names<'a> {
    pub program: &'a Program<'a>,
    pub params: usize,
    pub locals: usize,
    pub now: &'a [u64],
    pub old: &'a [u64],
    pub ghost sized: { Sized program.now params locals now.now old.now },
}

impl Slot {
    // Its numbers, among those of all names.
    pub fn part(self, numbers: &[u64]) -> &[u64]
        requires { self.start + self.size ≤ length numbers.now }
        ensures { result.now ≡ take self.size (drop self.start numbers.now) }
    {
        &numbers[self.start..self.start + self.size]
    }
}

impl<'a> Names<'a> {
    ghost use Rattle.std.specs.Option.{option_map};
    ghost use Rattle.lang.specs.Meaning.{values_of};
    ghost use Rattle.eval.specs.Naming.{state_now, state_old};

    // The numbers of a name, if it is declared.
    #[tactic(auto, using(crate::proofs::States::slot_fits, crate::proofs::States::values_at, crate::proofs::States::values_missing))]
    pub(crate) fn values_now(self, name: &[u8]) -> Option<&'a [u64]>
        ensures { option_map (λ x. x.now) result ≡ values_of (state_now self.entry) name.now }
    {
        let slot = slot_of(self.program, self.params, self.locals, name)?;
        Some(slot.part(self.now))
    }

    // The same of the state with which the procedure began.
    #[tactic(auto, using(crate::proofs::States::slot_fits, crate::proofs::States::values_at, crate::proofs::States::values_missing))]
    pub(crate) fn values_old(self, name: &[u8]) -> Option<&'a [u64]>
        ensures { option_map (λ x. x.now) result ≡ values_of (state_old self.entry) name.now }
    {
        let slot = slot_from(self.program, self.params, 0, name)?;
        Some(slot.part(self.old))
    }
}

// How many numbers the names have together that are declared from an index on.
pub fn total(program: &Program<'_>, from: usize) -> usize
    requires { counts (declared (rest program.now from)) < 2 ^ 64 }
    ensures { result ≡ counts (declared (rest program.now from)) }
{
    declarations::from(&*program, from)
        .map(|d| d.shape.count())
        .sum()
}

// The numbers of a name that is declared from an index on, where those of the first declaration begin at `start`.
#[tactic(auto, unfolding(crate::specs::States::counts, crate::specs::States::slot_of))]
fn slot_from(program: &Program<'_>, from: usize, start: usize, name: &[u8]) -> Option<Slot>
    requires { start + counts (declared (rest program.now from)) < 2 ^ 64 }
    ensures { result ≡ slot_of (declared (rest program.now from)) start name.now }
{
    let mut n = start;
    for d in declarations::from(&*program, from) {
        let size = d.shape.count();
        if d.name().is(name) {
            return Some(Slot { start: n, size });
        }
        n += size;
    }
    None
}

// The numbers of a name that is declared from one of two indices on.
pub fn slot_of(program: &Program<'_>, params: usize, locals: usize, name: &[u8]) -> Option<Slot>
    requires { counts (both program.now params locals) < 2 ^ 64 }
    ensures { result ≡ slot_of (both program.now params locals) 0 name.now }
{
    // A match, since nothing is known of what a closure returns that holds a program.
    match slot_from(program, params, 0, name) {
        Some(slot) => Some(slot),
        None => slot_from(program, locals, total(program, params), name),
    }
}
