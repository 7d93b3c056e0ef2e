// Numbers in a row.
ghost use borrow.Rule.Slice.PartMut.{put_mid};
ghost use Rattle.std.specs.Prelude.{◌≡◌, ◌+◌, ◌^◌, ◌≤◌, length, MatchOption};
ghost use Rattle.walk.specs.Walking.{rest, declared};
ghost use Rattle.eval.specs.States.{counts};

use lang::program::Program;
use walk::declarations;

// How many numbers the names have together that are declared from an index on, if there are so many. `eval`'s total asks that
// there are; here it is tested.
pub fn declared_count(program: &Program<'_>, from: usize) -> Option<usize>
    ensures { MatchOption result (2 ^ 64 ≤ counts (declared (rest program.now from))) (λ n. n ≡ counts (declared (rest program.now from))) }
{
    let mut n: usize = 0;
    for d in declarations::from(&*program, from) {
        n = n.checked_add(d.shape.count())?;
    }
    Some(n)
}

// Writes several, from an index on. A function by itself: both of its callers prove from what the numbers are afterwards.
pub fn copy(numbers: &mut Vec<u64>, start: usize, values: &[u64])
    requires { start + length values.now ≤ length numbers.old.items }
    ensures { numbers.new.items ≡ put_mid start (length values.now) numbers.old.items values.now }
{
    let end = start + values.len();
    let row = numbers.as_mut_slice();
    row[start..end].copy_from_slice(values);
}
