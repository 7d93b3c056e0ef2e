// Calls: the arguments are apart, and of the sizes of the parameters.
ghost use Rattle.std.specs.Prelude.{◌≡◌, false, is_ok, nat_eq};
ghost use Rattle.lang.specs.Base.{maybe, distinct};
ghost use Rattle.lang.specs.Holding.{Holds};
ghost use Rattle.lang.specs.Soundness.{find_decl, same_sizes};
ghost use Rattle.lang.specs.Syntax as syntax;
ghost use Rattle.walk.specs.Listing.{declared_in, passed_in};
ghost use Rattle.walk.specs.Shapes.{size_of};
ghost use Rattle.walk.specs.Walking.{rest, word, passed};
ghost use Rattle.sound.specs.Checking.{callable};
ghost use Rattle.sound.specs.Scopes.{env};

use crate::scope::Scope;
use crate::{Rule, Unsound};
use lang::code::Place;
use walk;
use walk::arguments::Arguments;
use walk::declarations::Declarations;
use walk::shape::Shape;
use walk::{arguments, declarations, procedures};

// No argument is given twice.
fn distinct_arguments(arguments: Arguments<'_>) -> Result<(), Unsound>
    ensures { is_ok result ≡ distinct (passed_in arguments.entry) }
{
    let mut rest = arguments;
    while let Some(x) = rest.next() {
        if rest.give(x.text) {
            return Err(Rule::DuplicateArgument.at(x.at));
        }
    }
    Ok(())
}

// Has what a name stands for that shape?
fn has_shape(scope: Scope<'_>, name: &[u8], shape: Shape) -> bool
    ensures { result ≡ maybe (find_decl (env scope.entry).names name.now) false (λ d. nat_eq d.size (size_of shape)) }
{
    scope.shape_of(name) == Some(shape)
}

// The arguments of a call are as many as the parameters, and of their sizes.
fn same_sizes(
    scope: Scope<'_>,
    call: Place,
    arguments: Arguments<'_>,
    params: Declarations<'_>,
) -> Result<(), Unsound>
    ensures { is_ok result ≡ same_sizes (env scope.entry).names (declared_in params.entry) (passed_in arguments.entry) }
{
    let mut wanted = params;
    for x in arguments {
        let Some(param) = wanted.next() else {
            return Err(Rule::ArgumentCount.at(x.at));
        };
        if !has_shape(scope, x.text, param.shape) {
            return Err(Rule::ArgumentSize.at(x.at));
        }
    }
    match wanted.next() {
        Some(_) => Err(Rule::ArgumentCount.at(call)),
        None => Ok(()),
    }
}

// A call whose arguments begin at an index.
pub fn check_call(scope: Scope<'_>, name: Place, from: usize) -> Result<(), Unsound>
    ensures { (p : syntax.Program) → Holds scope.entry.program.now p → is_ok result ≡ callable p (env scope.entry) (word scope.entry.program.now name) (passed (rest scope.entry.program.now from)) }
{
    let program = scope.program;
    let Some(f) = procedures::find(program, 0, name) else {
        return Err(Rule::UnknownProcedure.at(name));
    };
    let params = declarations::from(program, walk::skip(program, f, 2));
    let arguments = arguments::from(program, from);
    same_sizes(scope, name, arguments, params)?;
    distinct_arguments(arguments)
}
