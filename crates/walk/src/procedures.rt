// Procedures one after the other, and the parts of one.
ghost use Rattle.std.specs.Prelude.{◌≡◌, ◌+◌, ◌^◌, ◌<◌, min, List, [], length, IfSome, None, MatchOption, is_some};
ghost use Rattle.lang.specs.Code.{code_proc, code_procs};
ghost use Rattle.lang.specs.Holding.{code_of};
ghost use Rattle.lang.specs.Instr.{Instr};
ghost use Rattle.walk.specs.Roles.{role, begun_name};
ghost use Rattle.lang.specs.Soundness.{find_proc};
ghost use Rattle.lang.specs.Syntax.{Proc};
ghost use Rattle.walk.specs.Walking.{first, rest, word, word_of, name_of, Laid, ProcAt, ProcFound};

use crate::declarations;
use crate::name::Name;
use lang::code::{Node, Place};
use lang::program::Program;

// Where the parts of a procedure begin: its parameters, what it asks, promises and measures, its locals, its statements.
#[derive(Clone, Copy)]
pub struct Outline {
    pub params: usize,
    pub head: usize,
    pub locals: usize,
    pub body: usize,
}

// A procedure: where it begins, the place of its name, and the index behind its end. As a declaration's, the name itself is read when
// it is asked for.
#[derive(Clone, Copy)]
pub struct Procedure<'p> {
    pub program: &'p Program<'p>,
    pub start: usize,
    pub place: Place,
    pub next: usize,
}

impl<'p> Procedure<'p> {
    pub fn name(self) -> Name<'p>
        ensures at { result.at ≡ self.entry.place }
        ensures text { result.text.now ≡ name_of self.entry }
    {
        Name::at(self.program, self.place)
    }
}

// What procedures there are one after the other from an index on.
#[derive(Clone, Copy)]
pub struct Procedures<'p> {
    pub program: &'p Program<'p>,
    pub at: usize,
}

// The parts of the procedure at an index.
pub fn outline_at(program: &Program<'_>, i: usize) -> Outline
    ensures { (q : Proc) (k : List Instr) → rest program.now i ≡ code_proc q k → Laid program.now result q k }
{
    let params = crate::skip(program, i, 2);
    let head = declarations::end(program, params);
    let post = crate::part_end(program, head);
    let measure = crate::part_end(program, post);
    let locals = crate::part_end(program, measure);
    let body = crate::skip(program, declarations::end(program, locals), 1);
    Outline {
        params,
        head,
        locals,
        body,
    }
}

fn begun_name(program: &Program<'_>, i: usize) -> Option<Place>
    ensures bound { length (code_of program.now) < 2 ^ 64 }
    ensures name { word_of program.now result ≡ begun_name (role (first (rest program.now i))) }
{
    match crate::at(program, i) {
        Node::Proc(f) => Some(f),
        _ => None,
    }
}

// The procedure at an index.
pub fn at<'p>(program: &'p Program<'p>, i: usize) -> Option<Procedure<'p>>
    ensures onward { IfSome result (λ f. (i < f.next) × (i < length (code_of program.now))) }
    ensures finds { (qs : List Proc) → rest program.now i ≡ code_procs qs [] → MatchOption result (qs ≡ []) (λ f. ProcAt program.now i f qs) }
    ensures start { IfSome result (λ f. f.start ≡ i) }
    ensures begins { is_some result ≡ is_some (begun_name (role (first (rest program.now i)))) }
{
    let place = begun_name(program, i)?;
    Some(Procedure {
        program,
        start: i,
        place,
        next: crate::part_end(program, i + 1),
    })
}

// The procedures from an index on.
pub fn from<'p>(program: &'p Program<'p>, at: usize) -> Procedures<'p>
    ensures program { result.program.now ≡ program.now }
    ensures at { result.at ≡ at }
{
    Procedures { program, at }
}

impl<'p> Iterator for Procedures<'p> {
    ghost use Rattle.walk.specs.Listing.{nodes_left, GivesProcedure};

    type Item = Procedure<'p>;

    ghost next_gives = { GivesProcedure };

    ghost remaining = { nodes_left };

    fn next(&mut self) -> Option<Procedure<'p>> {
        let f = at(self.program, self.at)?;
        self.at = f.next;
        Some(f)
    }
}

// The procedure with the name of these bytes, at an index or behind it.
pub fn find_named(program: &Program<'_>, from: usize, name: &[u8]) -> Option<usize>
    ensures { (qs : List Proc) → rest program.now from ≡ code_procs qs [] → MatchOption result (find_proc qs name.now ≡ None) (λ i. ProcFound program.now i qs name.now) }
{
    for f in crate::procedures::from(&*program, from) {
        if f.name().is(name) {
            return Some(f.start);
        }
    }
    None
}

// The procedure with the name that stands at a place of the text.
pub fn find(program: &Program<'_>, from: usize, name: Place) -> Option<usize>
    ensures { (qs : List Proc) → rest program.now from ≡ code_procs qs [] → MatchOption result (find_proc qs (word program.now name) ≡ None) (λ i. ProcFound program.now i qs (word program.now name)) }
{
    find_named(program, from, program.name(name))
}
