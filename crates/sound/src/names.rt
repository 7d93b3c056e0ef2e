// What is declared in a procedure: few names, each once, and short rows.
ghost use Rattle.std.specs.Prelude.{◌≡◌, ◌++◌, length, is_some, is_ok, nat_le};
ghost use Rattle.lang.specs.Base.{all_of};
ghost use Rattle.sound.specs.Checking.{apart, well_declared};
ghost use Rattle.lang.specs.Soundness.{find_decl};
ghost use Rattle.walk.specs.Listing.{declared_in};
ghost use Rattle.walk.specs.Walking.{rest, declared};

use crate::{Rule, Unsound};
use lang::code::Place;
use lang::program::Program;
use walk;
use walk::declarations;
use walk::declarations::Declarations;
use walk::name::Name;
use walk::procedures::Outline;

// Is a name declared among these, or among the others?
#[tactic(auto, using(crate::proofs::Naming::there, crate::proofs::Naming::some_shape))]
fn declares(these: Declarations<'_>, others: Declarations<'_>, name: Name<'_>) -> bool
    ensures { result ≡ is_some (find_decl (declared_in these.entry ++ declared_in others.entry) name.entry.text.now) }
{
    these.shape(name.text).is_some() || others.shape(name.text).is_some()
}

// None of these names comes again behind it, or among the others.
#[tactic(auto, using(crate::proofs::Naming::apart_none, crate::proofs::Naming::not_apart, crate::proofs::Naming::apart_so_far))]
fn check_apart(these: Declarations<'_>, others: Declarations<'_>) -> Result<(), Unsound>
    ensures { is_ok result ≡ apart (declared_in these.entry) (declared_in others.entry) }
{
    let mut rest = these;
    while let Some(d) = rest.next() {
        if declares(rest, others, d.name()) {
            return Err(Rule::DuplicateName.at(d.place));
        }
    }
    Ok(())
}

// No row is longer than 16.
fn check_rows(these: Declarations<'_>) -> Result<(), Unsound>
    ensures { is_ok result ≡ all_of (λ d. nat_le d.size 16) (declared_in these.entry) }
{
    for d in these {
        if d.shape.count() > 16 {
            return Err(Rule::RowTooLong.at(d.place));
        }
    }
    Ok(())
}

// There are at most 64 names.
fn are_few(program: &Program<'_>, o: Outline) -> bool
    ensures { result ≡ nat_le (length (declared (rest program.now o.params) ++ declared (rest program.now o.locals))) 64 }
{
    let params = declarations::count(program, o.params);
    params <= 64 && declarations::count(program, o.locals) <= 64 - params
}

// The declarations of a procedure of that name. Their number comes first, since each name is looked for among the others.
pub fn check_names(program: &Program<'_>, name: Place, o: Outline) -> Result<(), Unsound>
    ensures { is_ok result ≡ well_declared (declared (rest program.now o.params)) (declared (rest program.now o.locals)) }
{
    if !are_few(program, o) {
        return Err(Rule::TooManyNames.at(name));
    }
    let params = declarations::from(&*program, o.params);
    let locals = declarations::from(&*program, o.locals);
    let none = declarations::none(&*program);
    check_apart(params, locals)?;
    check_apart(locals, none)?;
    check_rows(params)?;
    check_rows(locals)
}
