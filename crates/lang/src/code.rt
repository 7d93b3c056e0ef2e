// A program in lent words: its nodes one after the other, in the order of the text, operands before what is done with them.

pub mod record;

use crate::syntax::{ArithOp, Comparison};

// A byte of the text. A name or a number is given by the place where it begins.
#[derive(Clone, Copy, PartialEq, Eq, Debug)]
pub struct Place(pub usize);

// Each with the place of its name, number or sign, or with how many nodes the part behind it has.
#[derive(Clone, Copy, PartialEq, Eq, Debug)]
pub enum Node {
    Num(Place),
    Var(Place),
    Old(Place),
    Binary(ArithOp, Place),
    Index(Place),
    OldIndex(Place),
    True(Place),
    Compare(Comparison, Place),
    And(Place),
    Or(Place),
    Implies(Place),
    Not(Place),
    // all x < n { b }: the name, the bound, b with its length, the end
    All(Place),
    Bound(Place),
    Scope(usize),
    EndAll,
    Assign(Place),
    Store(Place),
    Check(Place),
    Havoc(Place),
    // the procedure's name, each argument, the end
    Call(Place),
    Arg(Place),
    EndCall,
    // the test, then both ways with their lengths, the end
    If(Place),
    Then(usize),
    Else(usize),
    EndIf,
    // test, invariant, measure and body, each with its length, and the end
    While(Place),
    Test(usize),
    Invariant(usize),
    Measure(usize),
    Do(usize),
    EndWhile,
    // the name, how many nodes there are behind this one up to the end, then the parts
    Proc(Place),
    Extent(usize),
    Param(Place),
    Local(Place),
    // behind a parameter's or local's name: a number, or a row of so many
    Scalar,
    Row(Place),
    Pre(usize),
    Post(usize),
    Body(usize),
    EndProc,
}
