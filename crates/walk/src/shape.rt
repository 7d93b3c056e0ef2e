// What a name is declared as.
ghost use Rattle.std.specs.Prelude.{◌≡◌};
ghost use Rattle.walk.specs.Shapes.{numbers_in, size_of};

use std::num::NonZeroU64;

// A number, or a row of so many.
#[derive(Clone, Copy, PartialEq, Eq, Debug)]
pub enum Shape {
    Scalar,
    Row(NonZeroU64),
}

impl Shape {
    // The shape of a size: 0 is a number's.
    pub fn of_size(size: u64) -> Shape
        ensures { size_of result ≡ size }
    {
        match NonZeroU64::new(size) {
            Some(length) => Shape::Row(length),
            None => Shape::Scalar,
        }
    }

    // How many numbers it has.
    pub fn count(self) -> usize
        ensures { result ≡ numbers_in (size_of self) }
    {
        match self {
            Shape::Scalar => 1,
            Shape::Row(length) => length.get() as usize,
        }
    }
}
