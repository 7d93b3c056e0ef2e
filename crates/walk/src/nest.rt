// What stands one inside the other, two at most.
ghost use Rattle.std.specs.Prelude.{◌≡◌, ◌≤◌, ◌∷◌, drop, length, MatchOption};
ghost use Rattle.walk.specs.Nests.{nested};

// The outer one first.
#[derive(Clone, Copy, Debug)]
pub enum Nest<T> {
    Zero,
    One(T),
    Two(T, T),
}

impl<T: Copy> Nest<T> {
    // One more, inside the others, if there is room.
    pub fn push(self, x: T) -> Option<Nest<T>>
        ensures { MatchOption result (2 ≤ length (nested self)) (λ n. nested n ≡ x ∷ nested self) }
    {
        match self {
            Nest::Zero => Some(Nest::One(x)),
            Nest::One(a) => Some(Nest::Two(a, x)),
            Nest::Two(_, _) => None,
        }
    }

    // Without the innermost.
    pub fn pop(self) -> Nest<T>
        ensures { nested result ≡ drop 1 (nested self) }
    {
        match self {
            Nest::Zero | Nest::One(_) => Nest::Zero,
            Nest::Two(a, _) => Nest::One(a),
        }
    }
}
