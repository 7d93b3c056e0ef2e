// The names that there are at a place of the code.
ghost use Rattle.std.specs.Prelude.{◌≡◌, true, List, false, not, is_some, is_ok, if◌then◌else◌, Some, None, ◌==◌, nat_eq};
ghost use Rattle.std.specs.Option.{option_map};
ghost use Rattle.lang.specs.Base.{maybe};
ghost use Rattle.lang.specs.Instr.{Instr, instr};
ghost use Rattle.lang.specs.Syntax as syntax;
ghost use Rattle.walk.specs.Roles.{role};
ghost use Rattle.walk.specs.Shapes.{size_of};
ghost use Rattle.walk.specs.Walking.{word, size_in};
ghost use Rattle.sound.specs.Checking.{fresh, meets, behind};
ghost use Rattle.sound.specs.Scopes.{counters, env};

use crate::{Rule, Unsound};
use lang::code::{Node, Place};
use lang::program::Program;
use walk::declarations::Declarations;
use walk::name::Name;
use walk::nest::Nest;
use walk::shape::Shape;

// The program, the procedure's parameters and locals that are known there, and the names of the `all` that stand around.
#[derive(Clone, Copy)]
pub struct Scope<'p> {
    pub program: &'p Program<'p>,
    pub params: Declarations<'p>,
    pub locals: Declarations<'p>,
    pub counting: Nest<Name<'p>>,
}

impl<'p> Scope<'p> {
    // Is it the name of one of those `all`?
    fn counts(self, name: &[u8]) -> bool
        ensures { (if result then Some 0 else None) ≡ size_in (counters self.entry.counting) name.now }
    {
        match self.counting {
            Nest::Zero => false,
            Nest::One(a) => a.is(name),
            Nest::Two(a, b) => b.is(name) || a.is(name),
        }
    }

    // What a name stands for.
    pub fn shape_of(self, name: &[u8]) -> Option<Shape>
        ensures { option_map size_of result ≡ size_in (env self.entry).names name.now }
    {
        if self.counts(name) {
            return Some(Shape::Scalar);
        }
        // A match, so that locals are looked at only where no parameter has the name; nothing is known of what a closure returns
        // that holds a program.
        match self.params.shape(name) {
            Some(shape) => Some(shape),
            None => self.locals.shape(name),
        }
    }

    // What the name at a place of the text stands for.
    pub fn shape(self, name: Place) -> Option<Shape>
        ensures { option_map size_of result ≡ size_in (env self.entry).names (word self.entry.program.now name) }
    {
        self.shape_of(self.program.name(name))
    }

    // What it stood for as the procedure began.
    pub fn old_shape(self, name: Place) -> Option<Shape>
        ensures { option_map size_of result ≡ size_in (env self.entry).olds (word self.entry.program.now name) }
    {
        self.params.shape(self.program.name(name))
    }

    // May an `all` have that name?
    pub fn counter(self, name: Place) -> Result<(), Unsound>
        ensures { is_ok result ≡ fresh (env self.entry) (word self.entry.program.now name) }
    {
        if let Nest::Two(_, _) = self.counting {
            return Err(Rule::NestedTooDeep.at(name));
        }
        if self.shape(name).is_some() {
            return Err(Rule::NameTaken.at(name));
        }
        Ok(())
    }

    // The names behind a node that meets what is asked.
    pub(crate) fn behind(self, node: Node) -> Scope<'p>
        ensures program { result.program.now ≡ self.entry.program.now }
        ensures names { (p : syntax.Program) (k : List Instr) → true ≡ meets p (env self.entry) (role (instr self.entry.program.now.text.now node)) k → env result ≡ behind (env self.entry) (role (instr self.entry.program.now.text.now node)) }
    {
        let counting = match node {
            Node::All(x) => {
                let name = Name::at(self.program, x);
                self.counting.push(name).unwrap_or(self.counting)
            }
            Node::EndAll => self.counting.pop(),
            _ => self.counting,
        };
        Scope { counting, ..self }
    }
}

// Is it there, and a number?
pub fn number(shape: Option<Shape>, at: Place, missing: Rule) -> Result<(), Unsound>
    ensures { is_ok result ≡ maybe (option_map size_of shape) false (λ n. nat_eq n 0) }
{
    match shape {
        Some(Shape::Scalar) => Ok(()),
        Some(Shape::Row(_)) => Err(Rule::NotANumber.at(at)),
        None => Err(missing.at(at)),
    }
}

// Is it there, and a row?
pub fn row(shape: Option<Shape>, at: Place, missing: Rule) -> Result<(), Unsound>
    ensures { is_ok result ≡ maybe (option_map size_of shape) false (λ n. not (n == 0)) }
{
    match shape {
        Some(Shape::Row(_)) => Ok(()),
        Some(Shape::Scalar) => Err(Rule::NotARow.at(at)),
        None => Err(missing.at(at)),
    }
}

// Is it there?
pub fn known(shape: Option<Shape>, at: Place) -> Result<(), Unsound>
    ensures { is_ok result ≡ is_some shape }
{
    shape.map(|_| ()).ok_or(Rule::UnknownName.at(at))
}
