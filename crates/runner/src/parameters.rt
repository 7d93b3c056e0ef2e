// Procedures and their parameters, written out.
ghost use Rattle.std.specs.Prelude.{◌≡◌, Some, map, IfOk, string_bytes};
ghost use Rattle.lang.specs.Holding.{Holds};
ghost use Rattle.lang.specs.Syntax as syntax;
ghost use Rattle.runner.specs.Written.{declared_text, names_text, numbers_text, signature_text, values_text};
ghost use Rattle.walk.specs.Shapes.{size_of};
ghost use Rattle.walk.specs.Walking.{decl, declared, rest};

use bstr::BStr;
use itertools::Itertools;
use lang::program::Program;
use std::alloc::{AllocError, Global};
use std::fmt;
use walk::declarations::Declaration;
use walk::shape::Shape;
use walk::{declarations, procedures};

// The names of all procedures.
pub fn procedure_names(heap: Global, program: &Program<'_>) -> Result<String, AllocError>
    ensures { (p : syntax.Program) → Holds program.now p → IfOk result (λ s. string_bytes s ≡ names_text (map (λ q. q.name) p.procs)) }
{
    procedures::from(&*program, 0)
        .map(|procedure| BStr::new(procedure.name().text))
        .join(heap, ", ")
}

// A parameter, as it is declared.
#[derive(Clone, Copy)]
struct Parameter<'p>(Declaration<'p>);

impl fmt::Display for Parameter<'_> {
    ghost output = { λ p. Some (declared_text (decl p.0)) };

    fn fmt<W: fmt::Write>(&self, f: &mut fmt::Formatter<W>) -> fmt::Result {
        let name = BStr::new(self.0.name().text);
        match self.0.shape {
            Shape::Scalar => write!(f, "{name}"),
            Shape::Row(length) => write!(f, "{name}[{length}]"),
        }
    }
}

// The parameters from an index on, as they are declared.
pub fn signature(heap: Global, program: &Program<'_>, params: usize) -> Result<String, AllocError>
    ensures { IfOk result (λ s. string_bytes s ≡ signature_text (declared (rest program.now params))) }
{
    declarations::from(&*program, params)
        .map(Parameter)
        .join(heap, ", ")
}

// The numbers of a parameter: one alone, or a row in brackets.
#[derive(Clone, Copy)]
struct Numbers<'a> {
    shape: Shape,
    numbers: &'a [u64],
}

impl fmt::Display for Numbers<'_> {
    ghost output = { λ v. Some (numbers_text (size_of v.shape) v.numbers.now) };

    #[tactic(auto, using(crate::proofs::Rows::debug_row))]
    fn fmt<W: fmt::Write>(&self, f: &mut fmt::Formatter<W>) -> fmt::Result {
        match (self.shape, self.numbers) {
            (Shape::Scalar, [n, ..]) => write!(f, "{n}"),
            (Shape::Scalar, []) => Ok(()),
            (Shape::Row(_), row) => write!(f, "{row:?}"),
        }
    }
}

// A line for each parameter from an index on, with its numbers.
pub fn values(
    heap: Global,
    program: &Program<'_>,
    params: usize,
    numbers: &[u64],
) -> Result<String, AllocError>
    ensures { IfOk result (λ s. string_bytes s ≡ values_text (declared (rest program.now params)) numbers.now) }
{
    let mut out = String::new(heap);
    let mut left = numbers;
    for d in declarations::from(&*program, params) {
        let name = BStr::new(d.name().text);
        let shape = d.shape;
        let (numbers, behind) = left.split_at(shape.count().min(left.len()));
        let numbers = Numbers { shape, numbers };
        writeln!(out, "{name} = {numbers}")?;
        left = behind;
    }
    Ok(out)
}
