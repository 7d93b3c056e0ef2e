// A table of records over a row of lent words, two words for each record.
ghost use Rattle.std.specs.Prelude.{◌≡◌, ℕ, ◌≤◌, length};

use std::marker::PhantomData;
use thiserror::Error;

mod methods;

// What can be kept in a table: how a record is written into two words, and read back as the same record.
pub trait Record: Copy {
    ghost decoded: { ℕ → ℕ → Self };

    fn encode(self) -> (u64, u64)
        ensures { decoded result.0 result.1 ≡ self };

    fn decode(a: u64, b: u64) -> Self
        ensures { result ≡ decoded a b };
}

#[derive(Clone, Copy, PartialEq, Eq, Debug, Error)]
#[error("the table has no room for another record")]
pub struct Full;

// How many records a table had when it was marked: a table is a stack, and `release` takes off what was pushed since.
#[derive(Clone, Copy, Debug)]
pub struct Mark {
    height: usize,
}

// The records stand in the first `len` pairs: lent words and a length, no `Vec`, since reading allocates nothing.
#[derive(Drop)]
pub struct Table<'a, R> {
    pairs: &'a mut [[u64; 2]],
    len: usize,
    kind: PhantomData<R>,
    ghost within: { len ≤ length pairs.now },
}
