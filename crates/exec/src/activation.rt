// A procedure that has begun: its names with their numbers.
ghost use Rattle.eval.specs.States.{Sized};

use lang::program::Program;

// params, locals: where the names are declared in the code. numbers: those of the parameters, then those of the locals.
// olds: those of the parameters at the beginning.
#[derive(Drop)]
pub struct Activation<'p> {
    pub program: &'p Program<'p>,
    pub params: usize,
    pub locals: usize,
    pub numbers: Vec<u64>,
    pub olds: Vec<u64>,
    pub ghost sized: { Sized program.now params locals numbers.items olds.items },
}
