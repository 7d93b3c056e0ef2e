// How much there is to show of a program.
#![tactic(auto)]

ghost use Rattle.std.specs.Prelude.{◌≡◌, ◌+◌, ◌-◌, ◌^◌, min, true, List, ◌++◌};
ghost use Rattle.lang.specs.Amount as sizes;
ghost use Rattle.lang.specs.Amount.{size_decls, size_proc};
ghost use Rattle.lang.specs.Code.{code_proc};
ghost use Rattle.lang.specs.Holding.{Holds};
ghost use Rattle.lang.specs.Instr.{Instr, instr};
ghost use Rattle.lang.specs.Soundness.{sound, sound_proc};
ghost use Rattle.lang.specs.Syntax as syntax;
ghost use Rattle.walk.specs.Listing.{declared_in};
ghost use Rattle.walk.specs.Shapes.{size_of};
ghost use Rattle.walk.specs.Walking.{rest, declared};
ghost use Rattle.amount.specs.Weighing.{load, level, called, weighed, no_calls, call_size};

pub mod factors;

use crate::factors::Factors;
use lang::code::Node;
use lang::program::Program;
use walk;
use walk::declarations::Declarations;
use walk::procedures::Outline;
use walk::shape::Shape;
use walk::{declarations, procedures};

// How much a name of that shape is.
fn shape_amount(shape: Shape) -> u64
    ensures { result ≡ min (1 + size_of shape) (2 ^ 64 - 1) }
{
    match shape {
        Shape::Scalar => 1,
        Shape::Row(count) => count.get().saturating_add(1),
    }
}

// How much the declarations are.
#[tactic(auto, using(crate::proofs::Totals::sizes_none, crate::proofs::Totals::sizes_more))]
fn declared_amount(these: Declarations<'_>) -> u64
    ensures { result ≡ min (size_decls (declared_in these.entry)) (2 ^ 64 - 1) }
{
    let mut total: u64 = 0;
    for d in these {
        total = total.saturating_add(shape_amount(d.shape));
    }
    total
}

// How much the names of a procedure are.
#[tactic(auto, using(crate::proofs::Totals::sizes_append))]
fn names_amount(program: &Program<'_>, o: Outline) -> u64
    ensures { result ≡ min (size_decls (declared (rest program.now o.params) ++ declared (rest program.now o.locals))) (2 ^ 64 - 1) }
{
    let params = declared_amount(declarations::from(&*program, o.params));
    params.saturating_add(declared_amount(declarations::from(&*program, o.locals)))
}

// How much the part at an index is without its calls, in a procedure whose names are so much, where a measure counts so often.
fn part_amount(program: &Program<'_>, from: usize, names: u64, measure: u64) -> u64
    ensures { result ≡ min (weighed no_calls names measure (level 1) (rest program.now from)) (2 ^ 64 - 1) }
{
    let mut total: u64 = 0;
    let mut factors = Factors::at_level(1);
    for node in walk::nodes_from(&*program, from) {
        factors = factors.turn(program, node, measure);
        total = factors.add(total, node, names);
    }
    total
}

// How much a call is, in a procedure whose names are so much; another node is none.
fn call_amount(program: &Program<'_>, node: Node, names: u64) -> u64
    ensures { (p : syntax.Program) → Holds program.now p → sound p ≡ true → result ≡ min (called (call_size p names) (load (instr program.now.text.now node))) (2 ^ 64 - 1) }
{
    let Node::Call(name) = node else {
        return 0;
    };
    let Some(f) = procedures::find(program, 0, name) else {
        return 1;
    };
    let head = part_amount(program, procedures::outline_at(program, f).head, 0, 2);
    head.saturating_add(names.saturating_mul(2))
        .saturating_add(4)
}

// How much the statements at an index are, in a procedure whose names are so much: as `part_amount`, with the calls. A loop of its
// own, since a second one for the calls alone takes as long again, and nothing is known of what a closure gives that holds a program.
fn body_amount(program: &Program<'_>, from: usize, names: u64) -> u64
    ensures { (p : syntax.Program) → Holds program.now p → sound p ≡ true → result ≡ min (weighed (call_size p names) names 2 (level 1) (rest program.now from)) (2 ^ 64 - 1) }
{
    let mut total: u64 = 0;
    let mut factors = Factors::at_level(1);
    for node in walk::nodes_from(&*program, from) {
        factors = factors.turn(program, node, 2);
        total = factors.add(total, node, names);
        total = total.saturating_add(call_amount(program, node, names));
    }
    total
}

// How much the procedure at an index is.
fn procedure_amount(program: &Program<'_>, i: usize) -> u64
    ensures { (p : syntax.Program) → Holds program.now p → sound p ≡ true → (q : syntax.Proc) (k : List Instr) → rest program.now i ≡ code_proc q k → sound_proc p q ≡ true → result ≡ min (size_proc p q) (2 ^ 64 - 1) }
{
    let o = procedures::outline_at(program, i);
    let names = names_amount(program, o);
    let head = part_amount(program, o.head, 0, 1);
    names
        .saturating_add(head)
        .saturating_add(body_amount(program, o.body, names))
}

// How much there is to show of a sound program, or the largest number if it is more.
#[tactic(auto, using(crate::proofs::Amounts::weighs_all))]
pub fn amount(program: &Program<'_>) -> u64
    ensures { (p : syntax.Program) → Holds program.now p → sound p ≡ true → result ≡ min (sizes.amount p) (2 ^ 64 - 1) }
{
    let mut total: u64 = 1;
    for f in procedures::from(&*program, 0) {
        total = total.saturating_add(procedure_amount(program, f.start));
    }
    total
}
