// The head or the body of a procedure, node by node.
ghost use Rattle.std.specs.Prelude.{◌≡◌, ◌^◌, true, List, is_ok, nat_le};
ghost use Rattle.sound.specs.Checking.{near, meets, behind, meets_all};
ghost use Rattle.lang.specs.Holding.{Holds};
ghost use Rattle.lang.specs.Instr.{Instr, instr, number_at};
ghost use Rattle.walk.specs.Roles.{role};
ghost use Rattle.sound.specs.Scopes.{env};
ghost use Rattle.lang.specs.Syntax as syntax;
ghost use Rattle.walk.specs.Walking.{rest};

use crate::scope::Scope;
use crate::{Rule, Unsound, calls, scope};
use lang::code::{Node, Place};
use lang::program::Program;
use walk;

// May an `all` count that far?
fn limit(program: &Program<'_>, at: Place) -> Result<(), Unsound>
    ensures { is_ok result ≡ near program.now.width.0 (number_at program.now.text.now at.0) }
{
    let n = program.number(at);
    if n > 16 {
        return Err(Rule::CountsTooFar.at(at));
    }
    if !program.width.counts(n) {
        return Err(Rule::CountsPastWidth.at(at));
    }
    Ok(())
}

// What a node has to meet; `next` is the index behind it.
fn check_node(scope: Scope<'_>, node: Node, next: usize) -> Result<(), Unsound>
    ensures { (p : syntax.Program) → Holds scope.entry.program.now p → is_ok result ≡ meets p (env scope.entry) (role (instr scope.entry.program.now.text.now node)) (rest scope.entry.program.now next) }
{
    match node {
        Node::Var(x) | Node::Assign(x) => scope::number(scope.shape(x), x, Rule::UnknownName),
        Node::Index(x) | Node::Store(x) => scope::row(scope.shape(x), x, Rule::UnknownName),
        Node::Old(x) => scope::number(scope.old_shape(x), x, Rule::NotAParameter),
        Node::OldIndex(x) => scope::row(scope.old_shape(x), x, Rule::NotAParameter),
        Node::Havoc(x) => scope::known(scope.shape(x), x),
        Node::All(x) => scope.counter(x),
        Node::Bound(n) => limit(scope.program, n),
        Node::Call(f) => calls::check_call(scope, f, next),
        _ => Ok(()),
    }
}

// The part at an index, up to its end.
pub fn check_part(scope: Scope<'_>, from: usize) -> Result<(), Unsound>
    ensures { (p : syntax.Program) → Holds scope.entry.program.now p → is_ok result ≡ meets_all p (env scope.entry) (rest scope.entry.program.now from) }
{
    let mut names = scope;
    let mut rest = walk::nodes_from(scope.program, from);
    while let Some(node) = rest.next() {
        check_node(names, node, rest.at)?;
        names = names.behind(node);
    }
    Ok(())
}
