// A row of lent words in two parts.
ghost use Rattle.std.specs.Prelude.{◌≡◌, ◌<◌, ◌++◌, length, MatchResult};
ghost use Rattle.lent.specs.Parts.{Parted};

use thiserror::Error;

#[derive(Clone, Copy, PartialEq, Eq, Debug, Error)]
#[error("fewer words were lent than are wanted")]
pub struct Few;

// The first `size` words, and the others.
pub fn split(words: &mut [u64], size: usize) -> Result<(&mut [u64], &mut [u64]), Few>
    ensures { MatchResult result (λ s. Parted words.old size s.0.now s.1.now) (λ _. length words.old < size) }
{
    words.split_at_mut_checked(size).ok_or(Few)
}
