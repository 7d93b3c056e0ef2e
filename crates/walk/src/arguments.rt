// The arguments of a call.
ghost use Rattle.std.specs.Prelude.{◌≡◌, ◌+◌, ◌^◌, ◌<◌, [], length, MatchOption};
ghost use Rattle.lang.specs.Base.{among};
ghost use Rattle.lang.specs.Holding.{code_of};
ghost use Rattle.walk.specs.Listing.{passed_in};
ghost use Rattle.walk.specs.Roles.{role, passed_name};
ghost use Rattle.walk.specs.Walking.{first, rest, word, word_of, passed, PassedAt};

use crate::name::Name;
use lang::code::{Node, Place};
use lang::program::Program;

// What is passed one after the other from an index on.
#[derive(Clone, Copy)]
pub struct Arguments<'p> {
    pub program: &'p Program<'p>,
    pub at: usize,
}

fn passed_name(program: &Program<'_>, i: usize) -> Option<Place>
    ensures bound { length (code_of program.now) < 2 ^ 64 }
    ensures name { word_of program.now result ≡ passed_name (role (first (rest program.now i))) }
{
    match crate::at(program, i) {
        Node::Arg(x) => Some(x),
        _ => None,
    }
}

// The argument at an index.
pub fn at<'p>(program: &'p Program<'p>, i: usize) -> Option<Name<'p>>
    ensures { MatchOption result (passed (rest program.now i) ≡ []) (λ x. PassedAt program.now i x) }
{
    let place = passed_name(program, i)?;
    Some(Name::at(program, place))
}

// The arguments from an index on.
pub fn from<'p>(program: &'p Program<'p>, at: usize) -> Arguments<'p>
    ensures { passed_in result ≡ passed (rest program.now at) }
{
    Arguments { program, at }
}

impl<'p> Iterator for Arguments<'p> {
    ghost use Rattle.std.specs.Iterator.{item_count, YieldsFirstBy};
    ghost use Rattle.walk.specs.Listing.{passed_in};

    type Item = Name<'p>;

    ghost next_gives = { YieldsFirstBy (λ x. x.text.now) passed_in };

    ghost remaining = { item_count passed_in };

    fn next(&mut self) -> Option<Name<'p>> {
        let x = at(self.program, self.at)?;
        self.at += 1;
        Some(x)
    }
}

impl<'p> Arguments<'p> {
    // Is the name among them?
    pub fn give(self, name: &[u8]) -> bool
        ensures { result ≡ among name.now (passed_in self.entry) }
    {
        for x in self {
            if x.is(name) {
                return true;
            }
        }
        false
    }
}

// Is the name given at an index or behind it?
pub fn gives(program: &Program<'_>, from: usize, name: Place) -> bool
    ensures { result ≡ among (word program.now name) (passed (rest program.now from)) }
{
    crate::arguments::from(&*program, from).give(program.name(name))
}

// The index behind the last argument.
pub fn end(program: &Program<'_>, from: usize) -> usize
    ensures { result ≡ from + length (passed (rest program.now from)) }
{
    // The index itself is asked for, so this loop is over indices; and no name is read, since nothing bounds its length.
    let mut i = from;
    while let Some(_) = passed_name(program, i) {
        i += 1;
    }
    i
}
