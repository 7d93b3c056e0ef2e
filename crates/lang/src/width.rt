// How many bits the numbers of a program have.
ghost use Rattle.std.specs.Prelude.{◌≡◌, ◌%◌, ◌^◌, nat_le, nat_lt};

use std::fmt;

#[derive(Clone, Copy, PartialEq, Eq, Debug)]
pub struct Width(pub u64);

impl Width {
    // Is this a number of the width?
    pub fn holds(self, n: u64) -> bool
        ensures { result ≡ nat_lt n (2 ^ self.0) }
    {
        self.0 >= 64 || n < 1 << self.0
    }

    // Are there so many numbers of the width?
    pub fn counts(self, n: u64) -> bool
        ensures { result ≡ nat_le n (2 ^ self.0) }
    {
        self.0 >= 64 || n <= 1 << self.0
    }

    // The number that has the last bits of this one, as many as the width has.
    pub fn reduce(self, n: u64) -> u64
        ensures { result ≡ n % 2 ^ self.0 }
    {
        if self.0 >= 64 { n } else { n % (1 << self.0) }
    }
}

// By hand: the library derives no `Display`.
impl fmt::Display for Width {
    ghost use Rattle.std.specs.Prelude.{Some};
    ghost use Rattle.std.specs.Fmt.{decimal};

    ghost output = { λ w. Some (decimal w.0) };

    fn fmt<W: fmt::Write>(&self, f: &mut fmt::Formatter<W>) -> fmt::Result {
        write!(f, "{}", self.0)
    }
}
