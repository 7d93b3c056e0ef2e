// Whether a procedure can be run with given numbers.
ghost use Rattle.std.specs.Prelude.{◌≡◌, ◌^◌, ◌<◌, ◌≤◌, length, MatchOption, MatchResult, slice_index};
ghost use Rattle.exec.specs.Outcomes.{Below, Checked, Refused};

use crate::numbers;
use crate::outcome::Refusal;
use lang::program::Program;
use lang::width::Width;
use walk::procedures;
use walk::procedures::Outline;

// The first number that is not one of the width.
fn too_large(width: Width, numbers: &[u64]) -> Option<usize>
    ensures { MatchOption result (Below width.0 numbers.now (length numbers.now)) (λ i. (i < length numbers.now) × (2 ^ width.0 ≤ slice_index numbers.now i)) }
{
    numbers.iter().position(|n| !width.holds(*n))
}

// The parts of the procedure at an index, if it can be run with the numbers.
pub fn check(program: &Program<'_>, procedure: usize, numbers: &[u64]) -> Result<Outline, Refusal>
    ensures { MatchResult result (λ o. Checked program.now procedure numbers.now o) (λ e. Refused program.now procedure numbers.now e) }
{
    if procedures::at(&*program, procedure).is_none() {
        return Err(Refusal::NoProcedure);
    }
    let o = procedures::outline_at(program, procedure);
    let count = numbers::declared_count(program, o.params);
    if Some(numbers.len()) != count {
        return Err(Refusal::Count { wanted: count });
    }
    match too_large(program.width, numbers) {
        Some(index) => Err(Refusal::NumberTooLarge { index }),
        None => Ok(o),
    }
}
