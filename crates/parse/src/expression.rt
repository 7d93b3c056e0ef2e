// Reads an expression. What nests is kept in a table and not on the machine's stack.
ghost use Rattle.std.specs.Prelude.{◌≡◌, ◌<◌, true, [], length, Some, None, IfOk, MatchResult, OnOk};
ghost use Rattle.parse.specs.Unbounded.{sum∞};
ghost use Rattle.lang.specs.Code.{code_expr};
ghost use Rattle.lang.specs.Grammar.{starts, additive, multiplicative};
ghost use Rattle.lang.specs.Instr.{instr};
ghost use Rattle.parse.specs.InExpr.{tight, AtOperand, BehindAtom, BehindSum, InExpr, Steps, Used, behind_name, name_step, last_waiting, completed};
ghost use Rattle.parse.specs.Reading.{Snap, snap, Reads, Room, Paid};
ghost use Rattle.lang.specs.declared.token.Fixed.TheVariants.{Old};
ghost use Rattle.parse.specs.declared.expression.Step.TheVariants.{Atom};

use crate::open::Open;
use crate::reader::Reader;
use crate::refusal::{Expected, NoText};
use lang::code::{Node, Place};
use lang::syntax::ArithOp;
use lang::token::{Fixed, Token};

// What comes next: an operand, or what is behind an atom that has just been read. A match over them, no closures: each step says
// in its contract which of them comes next.
#[derive(Clone, Copy)]
pub enum Step {
    Operand,
    Atom,
}

// Does it bind tighter than a sum?
fn is_tight(op: ArithOp) -> bool
    ensures { result ≡ tight op }
{
    match op {
        ArithOp::Add | ArithOp::Sub => false,
        ArithOp::Mul | ArithOp::Div | ArithOp::Rem => true,
    }
}

impl Reader<'_> {
    // Behind a name: the name's number is an atom, or the place in its row is read first.
    fn named(&mut self, number: Node, row: Open) -> Step
        requires room { Room (snap self.old) }
        requires more { length (snap self.old).code < (snap self.old).code_room }
        ensures after { snap self.new ≡ behind_name row (instr self.old.text.now number) (snap self.old) }
        ensures step { result ≡ name_step (snap self.old) }
    {
        if self.at(Fixed::LeftBracket) {
            self.begin(row);
            self.advance();
            Step::Operand
        } else {
            self.emit(number);
            Step::Atom
        }
    }

    // Behind `old`: a name, or a place in a row, as it was at the beginning.
    fn old_operand(&mut self) -> Result<Step, NoText>
        requires { (Room (snap self.old)) × (starts Old (snap self.old).ahead ≡ true) }
        ensures reads { Steps AtOperand (snap self.old) (snap self.new) result }
        ensures used { IfOk result (λ next. Used (snap self.old) (snap self.new) (Some next)) }
    {
        self.advance();
        let place = self.name()?;
        Ok(self.named(Node::Old(place), Open::OldIndex(place)))
    }

    // An atom, or what stands before one.
    fn operand(&mut self) -> Result<Step, NoText>
        requires { Room (snap self.old) }
        ensures reads { Steps AtOperand (snap self.old) (snap self.new) result }
        ensures used { IfOk result (λ next. Used (snap self.old) (snap self.new) (Some next)) }
    {
        if self.at(Fixed::LeftParen) {
            self.begin(Open::Paren);
            self.advance();
            return Ok(Step::Operand);
        }
        if self.at(Fixed::Old) {
            return self.old_operand();
        }
        let place = Place(self.cursor.start);
        match self.cursor.token {
            Token::Number => {
                self.emit(Node::Num(place));
                self.advance();
                Ok(Step::Atom)
            }
            Token::Name => {
                self.advance();
                Ok(self.named(Node::Var(place), Open::Index(place)))
            }
            Token::Fixed(_) | Token::Stray | Token::End => Err(self.missing(Expected::Operand)),
        }
    }

    // The operator that waits last, above the first `base` open parts, if it is of that tier.
    fn last_waiting(&self, base: usize, tight: bool) -> Option<(ArithOp, Place)>
        ensures { result ≡ last_waiting tight base (snap self.now).pending }
    {
        let Some(Open::Operator(op, place)) = self.last(base) else {
            return None;
        };
        if is_tight(op) == tight {
            Some((op, place))
        } else {
            None
        }
    }

    // Writes that operator.
    fn complete(&mut self, base: usize, tight: bool)
        requires { Room (snap self.old) }
        ensures after { snap self.new ≡ completed tight base (snap self.old) }
        ensures paid { Paid (snap self.old) (snap self.new) }
    {
        if let Some((op, place)) = self.last_waiting(base, tight) {
            let _ = self.finish();
            self.emit(Node::Binary(op, place));
        }
    }

    // The operator of a product that is at hand.
    fn multiplicative(&self) -> Option<ArithOp>
        ensures { result ≡ multiplicative (snap self.now).ahead }
    {
        let Token::Fixed(token) = self.cursor.token else {
            return None;
        };
        match token {
            Fixed::Times => Some(ArithOp::Mul),
            Fixed::Over => Some(ArithOp::Div),
            Fixed::Percent => Some(ArithOp::Rem),
            _ => None,
        }
    }

    // The operator of a sum that is at hand.
    fn additive(&self) -> Option<ArithOp>
        ensures { result ≡ additive (snap self.now).ahead }
    {
        let Token::Fixed(token) = self.cursor.token else {
            return None;
        };
        match token {
            Fixed::Plus => Some(ArithOp::Add),
            Fixed::Minus => Some(ArithOp::Sub),
            _ => None,
        }
    }

    // Behind a whole sum inside a parenthesis or a row: out of it.
    fn leave(&mut self) -> Result<(), NoText>
        requires { Room (snap self.old) }
        ensures reads { (before : Snap) → length before.pending < length (snap self.old).pending → BehindSum before (snap self.old) → MatchResult result (λ _. BehindAtom before (snap self.new)) (λ _. sum∞ before.ahead ≡ None) }
        ensures used { OnOk result (Used (snap self.old) (snap self.new) (Some Atom)) }
    {
        let Some(part) = self.finish() else {
            return Err(self.missing(Expected::Operand));
        };
        match part {
            Open::Paren => self.expect(Fixed::RightParen)?,
            Open::Index(place) => {
                self.expect(Fixed::RightBracket)?;
                self.emit(Node::Index(place));
            }
            Open::OldIndex(place) => {
                self.expect(Fixed::RightBracket)?;
                self.emit(Node::OldIndex(place));
            }
            // Nothing else has an expression inside.
            _ => return Err(self.missing(Expected::Operand)),
        }
        Ok(())
    }

    // Behind an atom: the operators that it completes are written; then another operator, or the end of what it stands in.
    fn operator(&mut self, base: usize) -> Result<Option<Step>, NoText>
        requires { Room (snap self.old) }
        ensures reads { (before : Snap) → base ≡ length before.pending → BehindAtom before (snap self.old) → MatchResult result (λ next. InExpr before (snap self.new) next) (λ _. sum∞ before.ahead ≡ None) }
        ensures used { IfOk result (λ next. Used (snap self.old) (snap self.new) next) }
    {
        self.complete(base, true);
        let place = Place(self.cursor.start);
        if let Some(op) = self.multiplicative() {
            self.begin(Open::Operator(op, place));
            self.advance();
            return Ok(Some(Step::Operand));
        }
        self.complete(base, false);
        if let Some(op) = self.additive() {
            self.begin(Open::Operator(op, place));
            self.advance();
            return Ok(Some(Step::Operand));
        }
        if self.height() <= base {
            return Ok(None);
        }
        self.leave()?;
        Ok(Some(Step::Atom))
    }

    // An expression, with its code behind what was written before.
    pub fn expression(&mut self) -> Result<(), NoText>
        requires { Room (snap self.old) }
        ensures reads { Reads sum∞ (λ e. code_expr e []) (snap self.old) (snap self.new) result }
        ensures paid { OnOk result (Paid (snap self.old) (snap self.new)) }
    {
        let base = self.height();
        let mut next = Some(Step::Operand);
        while let Some(step) = next {
            next = match step {
                Step::Operand => Some(self.operand()?),
                Step::Atom => self.operator(base)?,
            };
        }
        Ok(())
    }
}
