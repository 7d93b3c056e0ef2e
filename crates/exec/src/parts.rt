// Where the parts of statements stand in the code.
ghost use Rattle.std.specs.Prelude.{◌≡◌, cond};
ghost use Rattle.exec.specs.Parts.{BranchLaid, LoopLaid};

use lang::program::Program;
use walk;

// Both ways of an `if`, and what comes behind it.
#[derive(Clone, Copy)]
pub struct Ways {
    pub then: usize,
    pub otherwise: usize,
    pub behind: usize,
}

// Those of the `if` whose first way's length stands at an index.
pub fn ways_at(program: &Program<'_>, i: usize) -> Ways
    ensures { BranchLaid program.now i result }
{
    let other = walk::part_end(program, i);
    let end = walk::part_end(program, other);
    Ways {
        then: walk::skip(program, i, 1),
        otherwise: walk::skip(program, other, 1),
        behind: walk::skip(program, end, 1),
    }
}

impl Ways {
    // Which of them is taken.
    pub fn way(self, truth: bool) -> usize
        ensures { result ≡ cond truth self.then self.otherwise }
    {
        if truth { self.then } else { self.otherwise }
    }
}

// The test and the body of a loop, and what comes behind it.
#[derive(Clone, Copy)]
pub struct Rounds {
    pub test: usize,
    pub body: usize,
    pub behind: usize,
}

// Those of the `while` at an index.
pub fn rounds_at(program: &Program<'_>, i: usize) -> Rounds
    ensures { LoopLaid program.now i result }
{
    let test = walk::skip(program, i, 1);
    let measure = walk::part_end(program, walk::part_end(program, test));
    let body = walk::part_end(program, measure);
    let end = walk::part_end(program, body);
    Rounds {
        test: walk::skip(program, i, 2),
        body: walk::skip(program, body, 1),
        behind: walk::skip(program, end, 1),
    }
}
