// What comes next.
ghost use Rattle.std.specs.Prelude.{◌≡◌};
ghost use Rattle.walk.specs.Walking.{first, rest};
ghost use Rattle.exec.specs.Deeds.{deed, shown};

use lang::code::{Node, Place};
use lang::program::Program;
use walk;

// A match over them, no closures: which it is, is said by the code's definition, and the check sees that none is left out.
#[derive(Clone, Copy)]
pub enum Next {
    // an expression, and what is done with it
    Simple,
    If,
    While,
    Call(Place),
    Havoc(Place),
    // no statement: does not happen in a program that was read
    Nothing,
}

// The statement at an index; none at the end of statements that stand one after the other.
pub fn next_at(program: &Program<'_>, i: usize) -> Option<Next>
    ensures { shown program.now result ≡ deed (first (rest program.now i)) }
{
    match walk::at(program, i) {
        Node::Else(_) | Node::EndIf | Node::EndWhile | Node::EndProc => None,
        Node::If(_) => Some(Next::If),
        Node::While(_) => Some(Next::While),
        Node::Call(f) => Some(Next::Call(f)),
        Node::Havoc(x) => Some(Next::Havoc(x)),
        Node::Num(_)
        | Node::Var(_)
        | Node::Old(_)
        | Node::Binary(_, _)
        | Node::Index(_)
        | Node::OldIndex(_)
        | Node::True(_)
        | Node::Compare(_, _)
        | Node::And(_)
        | Node::Or(_)
        | Node::Implies(_)
        | Node::Not(_)
        | Node::All(_) => Some(Next::Simple),
        _ => Some(Next::Nothing),
    }
}
