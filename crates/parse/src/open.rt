// What has been begun in the text and is not whole yet.
ghost use Rattle.std.specs.Prelude.{◌≡◌};
ghost use Rattle.parse.specs.Layout.{open_part};

use lang::code::Place;
use lang::syntax::ArithOp;
use lent::Record;

// A block inside a statement.
#[derive(Clone, Copy)]
pub enum Kind {
    Then,
    Else,
    Do,
}

#[derive(Clone, Copy)]
pub enum Open {
    // (e
    Paren,
    // x[e and old x[e
    Index(Place),
    OldIndex(Place),
    // e + and so on
    Operator(ArithOp, Place),
    // [b
    Bracket,
    // b and, b or, b =>, not
    And(Place),
    Or(Place),
    Implies(Place),
    Not(Place),
    // all x < n { b: the index of the node that is to have b's length
    All(usize),
    // if b { .., else { .. and while b keep b; less e; { ..: likewise for the block
    Braces(Kind, usize),
}

// By hand: what is open lies in lent words, two for each.
impl Record for Open {
    ghost decoded = { open_part };

    fn encode(self) -> (u64, u64) {
        match self {
            Open::Paren => (0, 0),
            Open::Index(Place(p)) => (p as u64, 1),
            Open::OldIndex(Place(p)) => (p as u64, 2),
            Open::Operator(ArithOp::Add, Place(p)) => (p as u64, 3),
            Open::Operator(ArithOp::Sub, Place(p)) => (p as u64, 4),
            Open::Operator(ArithOp::Mul, Place(p)) => (p as u64, 5),
            Open::Operator(ArithOp::Div, Place(p)) => (p as u64, 6),
            Open::Operator(ArithOp::Rem, Place(p)) => (p as u64, 7),
            Open::Bracket => (0, 8),
            Open::And(Place(p)) => (p as u64, 9),
            Open::Or(Place(p)) => (p as u64, 10),
            Open::Implies(Place(p)) => (p as u64, 11),
            Open::Not(Place(p)) => (p as u64, 12),
            Open::All(n) => (n as u64, 13),
            Open::Braces(Kind::Then, n) => (n as u64, 14),
            Open::Braces(Kind::Else, n) => (n as u64, 15),
            Open::Braces(Kind::Do, n) => (n as u64, 16),
        }
    }

    fn decode(a: u64, b: u64) -> Open {
        let n = a as usize;
        let p = Place(n);
        match b {
            0 => Open::Paren,
            1 => Open::Index(p),
            2 => Open::OldIndex(p),
            3 => Open::Operator(ArithOp::Add, p),
            4 => Open::Operator(ArithOp::Sub, p),
            5 => Open::Operator(ArithOp::Mul, p),
            6 => Open::Operator(ArithOp::Div, p),
            7 => Open::Operator(ArithOp::Rem, p),
            8 => Open::Bracket,
            9 => Open::And(p),
            10 => Open::Or(p),
            11 => Open::Implies(p),
            12 => Open::Not(p),
            13 => Open::All(n),
            14 => Open::Braces(Kind::Then, n),
            15 => Open::Braces(Kind::Else, n),
            _ => Open::Braces(Kind::Do, n),
        }
    }
}
