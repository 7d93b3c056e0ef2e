// Where operations begin in code, and where an `all` ends.
ghost use Rattle.std.specs.Prelude.{◌≡◌, ℕ, false, List, MatchOption};
ghost use Rattle.lang.specs.Instr.{instr};
ghost use Rattle.lang.specs.declared.program.Program as lent;
ghost use Rattle.walk.specs.Walking.{first, rest, word_of};
ghost use Rattle.eval.specs.Evaluating.{OperandAt, AllEnd};
ghost use Rattle.eval.specs.Kinds.{kind, operand, counter_name, limit_of};

use lang::code::{Node, Place};
use lang::program::Program;
use walk;

fn is_operand(node: Node) -> bool
    ensures { (text : List ℕ) → result ≡ operand (instr text node) }
{
    matches!(
        node,
        Node::Num(_)
            | Node::Var(_)
            | Node::Old(_)
            | Node::Binary(_, _)
            | Node::Index(_)
            | Node::OldIndex(_)
            | Node::True(_)
            | Node::Compare(_, _)
            | Node::And(_)
            | Node::Or(_)
            | Node::Implies(_)
            | Node::Not(_)
            | Node::All(_)
    )
}

// The node at an index, if an operation begins with it.
#[tactic(auto, using(crate::proofs::Walking::operand_if))]
pub fn at(program: &Program<'_>, i: usize) -> Option<Node>
    ensures { MatchOption result (operand (first (rest program.now i)) ≡ false) (λ n. OperandAt program.now i n) }
{
    let node = walk::at(program, i);
    is_operand(node).then_some(node)
}

// The name of an `all` that begins with a node.
pub fn counter(node: Node) -> Option<Place>
    ensures { (held : lent.Program) → word_of held result ≡ counter_name (kind (instr held.text.now node)) }
{
    match node {
        Node::All(x) => Some(x),
        _ => None,
    }
}

// How far an `all` counts whose limit stands at an index.
pub fn limit(program: &Program<'_>, i: usize) -> u64
    ensures { result ≡ limit_of (kind (first (rest program.now i))) }
{
    match walk::at(program, i) {
        Node::Bound(n) => program.number(n),
        _ => 0,
    }
}

// The index behind an `all` whose limit stands at an index.
#[tactic(auto, using(crate::proofs::Walking::all_ends))]
pub fn all_end(program: &Program<'_>, i: usize) -> usize
    ensures { AllEnd program.now i result }
{
    let end = walk::part_end(program, walk::skip(program, i, 1));
    walk::skip(program, end, 1)
}
