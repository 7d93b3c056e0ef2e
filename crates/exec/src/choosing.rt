// Numbers from the row of choices.
ghost use Rattle.std.specs.Prelude.{◌≡◌, length, drop, IfOk};
ghost use Rattle.lang.specs.Meaning as meaning;

use lang::width::Width;
use std::alloc::{AllocError, Global};

// So many numbers of the width, the first of the choices; zeros where these are used up.
pub fn chosen(
    heap: Global,
    width: Width,
    count: usize,
    choices: &[u64],
) -> Result<Vec<u64>, AllocError>
    ensures { IfOk result (λ v. v.items ≡ meaning.chosen width.0 count choices.now) }
{
    let mut values = Vec::new(heap);
    for place in 0..count {
        let choice = choices.get(place).copied().unwrap_or(0);
        values.push(width.reduce(choice))?;
    }
    Ok(values)
}

// The choices that are left behind so many.
pub fn behind(choices: &[u64], count: usize) -> &[u64]
    ensures { result.now ≡ drop count choices.now }
{
    choices.get(count..).unwrap_or(&[])
}
