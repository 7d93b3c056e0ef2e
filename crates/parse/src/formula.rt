// Reads a formula. What nests is kept in a table and not on the machine's stack.
ghost use Rattle.std.specs.Prelude.{◌≡◌, ◌+◌, ◌<◌, ◌≤◌, true, [], length, is_some, Some, None, IfOk, MatchResult, OnOk};
ghost use Rattle.parse.specs.Unbounded.{formula∞};
ghost use Rattle.lang.specs.Code.{code_bool};
ghost use Rattle.lang.specs.Grammar.{starts, comparing, expect};
ghost use Rattle.lang.specs.Instr.{name_at, number_at};
ghost use Rattle.parse.specs.InBool.{of_link, last_link, linked, all_head, all_begun, all_ended, comparison∞, AtUnit, BehindUnit, BehindConjunction, BehindFormula, InBool, Turns, Used};
ghost use Rattle.parse.specs.Reading.{Snap, snap, Reads, advanced, opened, Room, Paid};
ghost use Rattle.lang.specs.declared.token.Fixed.TheVariants as the;
ghost use Rattle.parse.specs.declared.formula.Turn.TheVariants as turn;

use crate::open::Open;
use crate::parts::Header;
use crate::reader::Reader;
use crate::refusal::{Expected, NoText};
use lang::code::{Node, Place};
use lang::syntax::Comparison;
use lang::token::{Fixed, Token};

// What comes next: a unit, or what is behind a unit, or behind a whole formula, that has just been read. A match over them, no
// closures: each step says in its contract which of them comes next.
#[derive(Clone, Copy)]
pub enum Turn {
    Unit,
    Behind,
    Whole,
}

// What waits for the part behind it, and is written once that is whole. An enum, since clauses name by it what is written.
#[derive(Clone, Copy)]
pub enum Link {
    Not,
    And,
    Or,
}

// The node of an open part, if it is that link.
fn link_node(part: Open, link: Link) -> Option<Node>
    ensures { result ≡ of_link link part }
{
    match (part, link) {
        (Open::Not(place), Link::Not) => Some(Node::Not(place)),
        (Open::And(place), Link::And) => Some(Node::And(place)),
        (Open::Or(place), Link::Or) => Some(Node::Or(place)),
        _ => None,
    }
}

impl Reader<'_> {
    // Past the token that begins a part.
    fn enter(&mut self, part: Open)
        requires { length (snap self.old).pending < (snap self.old).pending_room }
        ensures { snap self.new ≡ advanced (opened part (snap self.old)) }
    {
        self.begin(part);
        self.advance();
    }

    // The node of the part that was begun last, above the first `base` parts, if it is that link.
    fn last_link(&self, base: usize, link: Link) -> Option<Node>
        ensures { result ≡ last_link link base (snap self.now).pending }
    {
        link_node(self.last(base)?, link)
    }

    // Writes that link; was there one?
    fn write_link(&mut self, base: usize, link: Link) -> bool
        requires { Room (snap self.old) }
        ensures after { snap self.new ≡ linked link base (snap self.old) }
        ensures some { result ≡ is_some (last_link link base (snap self.old).pending) }
        ensures paid { Paid (snap self.old) (snap self.new) }
    {
        let Some(node) = self.last_link(base, link) else {
            return false;
        };
        let _ = self.finish();
        self.emit(node);
        true
    }

    // Behind `all`: a name, <, a number and a brace.
    fn all_head(&mut self) -> Result<(Place, Place), NoText>
        ensures { MatchResult result (λ p. (all_head (snap self.old).ahead ≡ Some ((name_at self.old.text.now p.0.0, number_at self.old.text.now p.1.0), (snap self.new).ahead)) × (snap self.new ≡ advanced (advanced (advanced (advanced (snap self.old)))))) (λ _. all_head (snap self.old).ahead ≡ None) }
    {
        let name = self.name()?;
        self.expect(Fixed::LessThan)?;
        let bound = self.number()?;
        self.expect(Fixed::LeftBrace)?;
        Ok((name, bound))
    }

    // Begins what `all` says of each number, with room for its length.
    fn begin_all(&mut self, name: Place, bound: Place)
        requires code { length (snap self.old).code + 3 ≤ (snap self.old).code_room }
        requires pending { length (snap self.old).pending < (snap self.old).pending_room }
        ensures { snap self.new ≡ all_begun (name_at self.old.text.now name.0) (number_at self.old.text.now bound.0) (snap self.old) }
    {
        self.emit(Node::All(name));
        self.emit(Node::Bound(bound));
        let at = self.head(Header::Scope);
        self.begin(Open::All(at));
    }

    // The comparison that is at hand.
    fn compared(&self) -> Option<Comparison>
        ensures { result ≡ comparing (snap self.now).ahead }
    {
        let Token::Fixed(token) = self.cursor.token else {
            return None;
        };
        match token {
            Fixed::Equals => Some(Comparison::Equal),
            Fixed::LessThan => Some(Comparison::Less),
            Fixed::AtMost => Some(Comparison::AtMost),
            _ => None,
        }
    }

    // Two expressions with == < or <= between them.
    fn comparison(&mut self) -> Result<(), NoText>
        requires { Room (snap self.old) }
        ensures reads { Reads comparison∞ (λ b. code_bool b []) (snap self.old) (snap self.new) result }
        ensures paid { OnOk result (Paid (snap self.old) (snap self.new)) }
    {
        self.expression()?;
        let place = Place(self.cursor.start);
        let Some(op) = self.compared() else {
            return Err(self.missing(Expected::Comparison));
        };
        self.advance();
        self.expression()?;
        self.emit(Node::Compare(op, place));
        Ok(())
    }

    // all x < n {
    fn universal(&mut self) -> Result<Turn, NoText>
        requires { (Room (snap self.old)) × (starts the.All (snap self.old).ahead ≡ true) }
        ensures reads { Turns AtUnit (snap self.old) (snap self.new) result }
        ensures used { IfOk result (λ next. Used turn.Unit (snap self.old) (snap self.new) (Some next)) }
    {
        self.advance();
        let (name, bound) = self.all_head()?;
        self.begin_all(name, bound);
        Ok(Turn::Unit)
    }

    // A unit, or what stands before one.
    fn unit(&mut self) -> Result<Turn, NoText>
        requires { Room (snap self.old) }
        ensures reads { Turns AtUnit (snap self.old) (snap self.new) result }
        ensures used { IfOk result (λ next. Used turn.Unit (snap self.old) (snap self.new) (Some next)) }
    {
        let place = Place(self.cursor.start);
        if self.at(Fixed::Not) {
            self.enter(Open::Not(place));
            return Ok(Turn::Unit);
        }
        if self.at(Fixed::LeftBracket) {
            self.enter(Open::Bracket);
            return Ok(Turn::Unit);
        }
        if self.at(Fixed::All) {
            return self.universal();
        }
        if self.at(Fixed::Yes) {
            self.emit(Node::True(place));
            self.advance();
            return Ok(Turn::Behind);
        }
        self.comparison()?;
        Ok(Turn::Behind)
    }

    // Behind a conjunction: the disjunction that it completes is written; then another word, or the end of the formula.
    fn behind_conjunction(&mut self, base: usize) -> Turn
        requires { Room (snap self.old) }
        ensures reads { (before : Snap) → base ≡ length before.pending → BehindConjunction before (snap self.old) → InBool before (snap self.new) (Some result) }
        ensures used { Used turn.Behind (snap self.old) (snap self.new) (Some result) }
    {
        let _ = self.write_link(base, Link::Or);
        let place = Place(self.cursor.start);
        if self.at(Fixed::Or) {
            self.enter(Open::Or(place));
            return Turn::Unit;
        }
        if self.at(Fixed::Implies) {
            self.enter(Open::Implies(place));
            return Turn::Unit;
        }
        Turn::Whole
    }

    // Behind a unit: a `not` before it is written, or the conjunction that it completes; then another word.
    fn behind_unit(&mut self, base: usize) -> Turn
        requires { Room (snap self.old) }
        ensures reads { (before : Snap) → base ≡ length before.pending → BehindUnit before (snap self.old) → InBool before (snap self.new) (Some result) }
        ensures used { Used turn.Behind (snap self.old) (snap self.new) (Some result) }
    {
        if self.write_link(base, Link::Not) {
            return Turn::Behind;
        }
        let _ = self.write_link(base, Link::And);
        let place = Place(self.cursor.start);
        if self.at(Fixed::And) {
            self.enter(Open::And(place));
            return Turn::Unit;
        }
        self.behind_conjunction(base)
    }

    // Behind what `all` says: its brace, and its length where room was left for it.
    fn end_all(&mut self, at: usize) -> Result<(), NoText>
        requires { length (snap self.old).code < (snap self.old).code_room }
        ensures { MatchResult result (λ _. (expect the.RightBrace (snap self.old).ahead ≡ Some (snap self.new).ahead) × (snap self.new ≡ all_ended at (advanced (snap self.old)))) (λ _. expect the.RightBrace (snap self.old).ahead ≡ None) }
    {
        self.expect(Fixed::RightBrace)?;
        self.seal(Header::Scope, at);
        self.emit(Node::EndAll);
        Ok(())
    }

    // Behind a whole formula: out of what it stands in.
    fn behind_formula(&mut self, base: usize) -> Result<Option<Turn>, NoText>
        requires { Room (snap self.old) }
        ensures reads { (before : Snap) → base ≡ length before.pending → BehindFormula before (snap self.old) → MatchResult result (λ next. InBool before (snap self.new) next) (λ _. formula∞ before.ahead ≡ None) }
        ensures used { IfOk result (λ next. Used turn.Whole (snap self.old) (snap self.new) next) }
    {
        if self.height() <= base {
            return Ok(None);
        }
        let Some(part) = self.finish() else {
            return Err(self.missing(Expected::Operand));
        };
        match part {
            Open::Implies(place) => {
                self.emit(Node::Implies(place));
                return Ok(Some(Turn::Whole));
            }
            Open::Bracket => self.expect(Fixed::RightBracket)?,
            Open::All(at) => self.end_all(at)?,
            // Nothing else has a formula inside.
            _ => return Err(self.missing(Expected::Operand)),
        }
        Ok(Some(Turn::Behind))
    }

    // A formula, with its code behind what was written before.
    pub fn formula(&mut self) -> Result<(), NoText>
        requires { Room (snap self.old) }
        ensures reads { Reads formula∞ (λ b. code_bool b []) (snap self.old) (snap self.new) result }
        ensures paid { OnOk result (Paid (snap self.old) (snap self.new)) }
    {
        let base = self.height();
        let mut next = Some(Turn::Unit);
        while let Some(turn) = next {
            next = match turn {
                Turn::Unit => Some(self.unit()?),
                Turn::Behind => Some(self.behind_unit(base)),
                Turn::Whole => self.behind_formula(base)?,
            };
        }
        Ok(())
    }
}
