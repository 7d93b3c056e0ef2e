// Names as they are declared: parameters and locals.
ghost use Rattle.std.specs.Prelude.{◌≡◌, ◌+◌, ◌*◌, ◌^◌, ◌<◌, [], length, MatchOption};
ghost use Rattle.std.specs.Option.{option_map};
ghost use Rattle.lang.specs.Holding.{code_of};
ghost use Rattle.walk.specs.Listing.{declared_in};
ghost use Rattle.walk.specs.Roles.{role, declared_name, declared_size};
ghost use Rattle.walk.specs.Shapes.{size_of};
ghost use Rattle.walk.specs.Walking.{first, rest, word, word_of, decl, declared, DeclaredAt, size_in};

use crate::name::Name;
use crate::shape::Shape;
use lang::code::{Node, Place};
use lang::program::Program;

// A name, by the place where it stands, and what it is declared as. The name itself is read when it is asked for: nothing bounds
// its length, and who counts numbers does not want it.
#[derive(Clone, Copy)]
pub struct Declaration<'p> {
    pub program: &'p Program<'p>,
    pub place: Place,
    pub shape: Shape,
}

impl<'p> Declaration<'p> {
    pub fn name(self) -> Name<'p>
        ensures at { result.at ≡ self.entry.place }
        ensures text { result.text.now ≡ (decl self.entry).name }
    {
        Name::at(self.program, self.place)
    }
}

// What is declared one after the other from an index on.
#[derive(Clone, Copy)]
pub struct Declarations<'p> {
    pub program: &'p Program<'p>,
    pub at: usize,
}

fn declared_name(program: &Program<'_>, i: usize) -> Option<Place>
    ensures bound { length (code_of program.now) < 2 ^ 64 }
    ensures name { word_of program.now result ≡ declared_name (role (first (rest program.now i))) }
{
    match crate::at(program, i) {
        Node::Param(x) | Node::Local(x) => Some(x),
        _ => None,
    }
}

fn declared_shape(program: &Program<'_>, i: usize) -> Option<Shape>
    ensures { option_map size_of result ≡ declared_size (role (first (rest program.now i))) }
{
    match crate::at(program, i) {
        Node::Scalar => Some(Shape::Scalar),
        Node::Row(n) => Some(Shape::of_size(program.number(n))),
        _ => None,
    }
}

// The declaration at an index.
pub fn at<'p>(program: &'p Program<'p>, i: usize) -> Option<Declaration<'p>>
    ensures { MatchOption result (declared (rest program.now i) ≡ []) (λ d. DeclaredAt program.now i d) }
{
    let place = declared_name(program, i)?;
    let shape = declared_shape(program, i + 1)?;
    Some(Declaration {
        program,
        place,
        shape,
    })
}

// The declarations from an index on.
pub fn from<'p>(program: &'p Program<'p>, at: usize) -> Declarations<'p>
    ensures { declared_in result ≡ declared (rest program.now at) }
{
    Declarations { program, at }
}

// None at all: behind the last node nothing is declared.
pub fn none<'p>(program: &'p Program<'p>) -> Declarations<'p>
    ensures { declared_in result ≡ [] }
{
    from(program, crate::len(program))
}

impl<'p> Iterator for Declarations<'p> {
    ghost use Rattle.std.specs.Iterator.{item_count, YieldsFirstBy};
    ghost use Rattle.walk.specs.Listing.{declared_in};
    ghost use Rattle.walk.specs.Walking.{decl};

    type Item = Declaration<'p>;

    ghost next_gives = { YieldsFirstBy decl declared_in };

    ghost remaining = { item_count declared_in };

    fn next(&mut self) -> Option<Declaration<'p>> {
        let d = at(self.program, self.at)?;
        self.at += 2;
        Some(d)
    }
}

impl<'p> Declarations<'p> {
    // What a name is declared as.
    pub fn shape(self, name: &[u8]) -> Option<Shape>
        ensures { option_map size_of result ≡ size_in (declared_in self.entry) name.now }
    {
        for d in self {
            if d.name().is(name) {
                return Some(d.shape);
            }
        }
        None
    }
}

// The shape with which a name is declared, at an index or behind it.
pub fn find(program: &Program<'_>, from: usize, name: Place) -> Option<Shape>
    ensures { option_map size_of result ≡ size_in (declared (rest program.now from)) (word program.now name) }
{
    crate::declarations::from(&*program, from).shape(program.name(name))
}

// The index behind the last declaration.
pub fn end(program: &Program<'_>, from: usize) -> usize
    ensures { result ≡ from + 2 * length (declared (rest program.now from)) }
{
    // The index itself is asked for, so this loop is over indices.
    let mut i = from;
    while let Some(_) = at(&*program, i) {
        i += 2;
    }
    i
}

// How many declarations there are.
pub fn count(program: &Program<'_>, from: usize) -> usize
    ensures { result ≡ length (declared (rest program.now from)) }
{
    (end(program, from) - from) / 2
}
