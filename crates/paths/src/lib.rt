// Branches on a stack of what is given.
#![tactic(auto)]

ghost use Rattle.std.specs.Prelude.{ℕ};
ghost use Rattle.paths.specs.Paths.{Carrying};

// A stack on which each given stands under its way says what is given, at every width.
pub fn what_is_given_is_carried() -> u8
    ensures { (w : ℕ) → Carrying w }
{
    0
}
