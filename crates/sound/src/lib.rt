// Which programs are sound.
#![tactic(auto)]

ghost use Rattle.std.specs.Prelude.{◌≡◌, ◌&&◌, List, [], is_ok, nat_le};
ghost use Rattle.lang.specs.Base.{all_of};
ghost use Rattle.sound.specs.Checking.{all_declared, well_written};
ghost use Rattle.lang.specs.Code.{code_proc, code_procs};
ghost use Rattle.lang.specs.Holding.{Holds, code_of};
ghost use Rattle.lang.specs.Instr.{Instr};
ghost use Rattle.lang.specs.Soundness.{sound};
ghost use Rattle.lang.specs.Syntax as syntax;
ghost use Rattle.walk.specs.Walking.{rest};

pub mod calls;
pub mod names;
pub mod parts;
pub mod scope;

use crate::scope::Scope;
use lang::code::Place;
use lang::program::Program;
use thiserror::Error;
use walk;
use walk::nest::Nest;
use walk::{declarations, procedures};

// What a program that is not sound breaks, as it is told to whoever wrote it.
#[derive(Clone, Copy, Debug, PartialEq, Eq, Error)]
pub enum Rule {
    #[error("the width is to be 1 to 64")]
    Width,
    #[error("another procedure has this name")]
    DuplicateProcedure,
    #[error("a procedure has at most 64 parameters and locals")]
    TooManyNames,
    #[error("this name is declared again in the same procedure")]
    DuplicateName,
    #[error("a row has at most 16 numbers")]
    RowTooLong,
    #[error("there is no such name here")]
    UnknownName,
    #[error("a number is wanted here, and this is a row")]
    NotANumber,
    #[error("a row is wanted here, and this is a number")]
    NotARow,
    #[error("`old` is of parameters only")]
    NotAParameter,
    #[error("an `all` stands in one other `all` at most")]
    NestedTooDeep,
    #[error("an `all` counts to 16 at most")]
    CountsTooFar,
    #[error("an `all` counts to no more than there are numbers of the width")]
    CountsPastWidth,
    #[error("the name of an `all` is to be a new one")]
    NameTaken,
    #[error("there is no such procedure")]
    UnknownProcedure,
    #[error("this argument is handed over twice")]
    DuplicateArgument,
    #[error("a call has as many arguments as there are parameters")]
    ArgumentCount,
    #[error("an argument has the size of its parameter")]
    ArgumentSize,
}

impl Rule {
    // Broken at a place of the text.
    pub fn at(self, at: Place) -> Unsound
        ensures { result ≡ record { at = at; rule = self } }
    {
        Unsound { at, rule: self }
    }
}

#[derive(Clone, Copy, Debug, PartialEq, Eq)]
pub struct Unsound {
    pub at: Place,
    pub rule: Rule,
}

// The names of the procedures, and what is declared in them.
fn check_declared(program: &Program<'_>) -> Result<(), Unsound>
    ensures { (qs : List syntax.Proc) → code_of program.now ≡ code_procs qs [] → is_ok result ≡ all_declared qs }
{
    for f in procedures::from(&*program, 0) {
        if procedures::find_named(program, f.next, f.name().text).is_some() {
            return Err(Rule::DuplicateProcedure.at(f.place));
        }
        names::check_names(program, f.place, procedures::outline_at(program, f.start))?;
    }
    Ok(())
}

// What the procedure at an index asks, promises and measures, with its parameters, and its statements, with its locals too.
fn check_procedure(program: &Program<'_>, i: usize) -> Result<(), Unsound>
    ensures { (p : syntax.Program) → Holds program.now p → (q : syntax.Proc) (k : List Instr) → rest program.now i ≡ code_proc q k → is_ok result ≡ well_written p q }
{
    let o = procedures::outline_at(program, i);
    let head = Scope {
        program: &*program,
        params: declarations::from(&*program, o.params),
        locals: declarations::none(&*program),
        counting: Nest::Zero,
    };
    parts::check_part(head, o.head)?;
    let body = Scope {
        locals: declarations::from(&*program, o.locals),
        ..head
    };
    parts::check_part(body, o.body)
}

// What the procedures say and do.
fn check_written(program: &Program<'_>) -> Result<(), Unsound>
    ensures { (p : syntax.Program) → Holds program.now p → is_ok result ≡ all_of (well_written p) p.procs }
{
    for f in procedures::from(&*program, 0) {
        check_procedure(program, f.start)?;
    }
    Ok(())
}

fn is_width(width: u64) -> bool
    ensures { result ≡ (nat_le 1 width && nat_le width 64) }
{
    (1..=64).contains(&width)
}

// Is the program sound? If not, what it breaks, and where. Declarations come first: with few of them, names are found soon.
pub fn check(program: &Program<'_>) -> Result<(), Unsound>
    ensures { (p : syntax.Program) → Holds program.now p → is_ok result ≡ sound p }
{
    if !is_width(program.width.0) {
        // The width is a text's first number.
        return Err(Rule::Width.at(Place(0)));
    }
    check_declared(program)?;
    check_written(program)
}
