// How a node is written into two words: what it holds, and a number for its kind. The words are lent, and hold numbers only;
// each kind has a row in both tables, operators too, so that each number is seen to be read back as what wrote it.
ghost use Rattle.std.specs.Prelude.{◌≡◌, ◌<◌, ◌≤◌};
ghost use Rattle.lang.specs.Layout.{node};

use crate::code::{Node, Place};
use crate::syntax::{ArithOp, Comparison};
use lent::Record;

impl Record for Node {
    ghost decoded = { node };

    fn encode(self) -> (u64, u64) {
        match self {
            Node::Num(Place(p)) => (p as u64, 0),
            Node::Var(Place(p)) => (p as u64, 1),
            Node::Old(Place(p)) => (p as u64, 2),
            Node::Binary(ArithOp::Add, Place(p)) => (p as u64, 3),
            Node::Binary(ArithOp::Sub, Place(p)) => (p as u64, 4),
            Node::Binary(ArithOp::Mul, Place(p)) => (p as u64, 5),
            Node::Binary(ArithOp::Div, Place(p)) => (p as u64, 6),
            Node::Binary(ArithOp::Rem, Place(p)) => (p as u64, 7),
            Node::Index(Place(p)) => (p as u64, 8),
            Node::OldIndex(Place(p)) => (p as u64, 9),
            Node::True(Place(p)) => (p as u64, 10),
            Node::Compare(Comparison::Equal, Place(p)) => (p as u64, 11),
            Node::Compare(Comparison::Less, Place(p)) => (p as u64, 12),
            Node::Compare(Comparison::AtMost, Place(p)) => (p as u64, 13),
            Node::And(Place(p)) => (p as u64, 14),
            Node::Or(Place(p)) => (p as u64, 15),
            Node::Implies(Place(p)) => (p as u64, 16),
            Node::Not(Place(p)) => (p as u64, 17),
            Node::All(Place(p)) => (p as u64, 18),
            Node::Bound(Place(p)) => (p as u64, 19),
            Node::Scope(n) => (n as u64, 20),
            Node::EndAll => (0, 21),
            Node::Assign(Place(p)) => (p as u64, 22),
            Node::Store(Place(p)) => (p as u64, 23),
            Node::Check(Place(p)) => (p as u64, 24),
            Node::Havoc(Place(p)) => (p as u64, 25),
            Node::Call(Place(p)) => (p as u64, 26),
            Node::Arg(Place(p)) => (p as u64, 27),
            Node::EndCall => (0, 28),
            Node::If(Place(p)) => (p as u64, 29),
            Node::Then(n) => (n as u64, 30),
            Node::Else(n) => (n as u64, 31),
            Node::EndIf => (0, 32),
            Node::While(Place(p)) => (p as u64, 33),
            Node::Test(n) => (n as u64, 34),
            Node::Invariant(n) => (n as u64, 35),
            Node::Measure(n) => (n as u64, 36),
            Node::Do(n) => (n as u64, 37),
            Node::EndWhile => (0, 38),
            Node::Proc(Place(p)) => (p as u64, 39),
            Node::Extent(n) => (n as u64, 40),
            Node::Param(Place(p)) => (p as u64, 41),
            Node::Local(Place(p)) => (p as u64, 42),
            Node::Scalar => (0, 43),
            Node::Row(Place(p)) => (p as u64, 44),
            Node::Pre(n) => (n as u64, 45),
            Node::Post(n) => (n as u64, 46),
            Node::Body(n) => (n as u64, 47),
            Node::EndProc => (0, 48),
        }
    }

    fn decode(a: u64, b: u64) -> Node {
        let n = a as usize;
        if b < 22 {
            expression(n, b)
        } else if b < 39 {
            statement(n, b)
        } else {
            procedure(n, b)
        }
    }
}

// The kinds of nodes in expressions and boolean expressions.
fn expression(n: usize, b: u64) -> Node
    requires { b < 22 }
    ensures { result ≡ node n b }
{
    let p = Place(n);
    match b {
        0 => Node::Num(p),
        1 => Node::Var(p),
        2 => Node::Old(p),
        3 => Node::Binary(ArithOp::Add, p),
        4 => Node::Binary(ArithOp::Sub, p),
        5 => Node::Binary(ArithOp::Mul, p),
        6 => Node::Binary(ArithOp::Div, p),
        7 => Node::Binary(ArithOp::Rem, p),
        8 => Node::Index(p),
        9 => Node::OldIndex(p),
        10 => Node::True(p),
        11 => Node::Compare(Comparison::Equal, p),
        12 => Node::Compare(Comparison::Less, p),
        13 => Node::Compare(Comparison::AtMost, p),
        14 => Node::And(p),
        15 => Node::Or(p),
        16 => Node::Implies(p),
        17 => Node::Not(p),
        18 => Node::All(p),
        19 => Node::Bound(p),
        20 => Node::Scope(n),
        _ => Node::EndAll,
    }
}

// The kinds in statements.
fn statement(n: usize, b: u64) -> Node
    requires { (22 ≤ b) × (b < 39) }
    ensures { result ≡ node n b }
{
    let p = Place(n);
    match b {
        22 => Node::Assign(p),
        23 => Node::Store(p),
        24 => Node::Check(p),
        25 => Node::Havoc(p),
        26 => Node::Call(p),
        27 => Node::Arg(p),
        28 => Node::EndCall,
        29 => Node::If(p),
        30 => Node::Then(n),
        31 => Node::Else(n),
        32 => Node::EndIf,
        33 => Node::While(p),
        34 => Node::Test(n),
        35 => Node::Invariant(n),
        36 => Node::Measure(n),
        37 => Node::Do(n),
        _ => Node::EndWhile,
    }
}

// The kinds in procedures.
fn procedure(n: usize, b: u64) -> Node
    requires { 39 ≤ b }
    ensures { result ≡ node n b }
{
    let p = Place(n);
    match b {
        39 => Node::Proc(p),
        40 => Node::Extent(n),
        41 => Node::Param(p),
        42 => Node::Local(p),
        43 => Node::Scalar,
        44 => Node::Row(p),
        45 => Node::Pre(n),
        46 => Node::Post(n),
        47 => Node::Body(n),
        _ => Node::EndProc,
    }
}
