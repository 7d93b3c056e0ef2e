// Reads the statements that have no statements inside.
ghost use Rattle.std.specs.Prelude.{◌≡◌, ◌<◌, true, false, [], length, Some, None, MatchResult, OnOk};
ghost use Rattle.lang.specs.Code.{code_stmt};
ghost use Rattle.lang.specs.Grammar.{starts, expect};
ghost use Rattle.lang.specs.Instr.{instr, name_at};
ghost use Rattle.lang.specs.declared.token.Fixed.TheVariants as the;
ghost use Rattle.parse.specs.Reading.{snap, Reads, advanced, emitted, Room, Paid};
ghost use Rattle.parse.specs.Unbounded.{named_statement∞, statement∞};

use crate::reader::Reader;
use crate::refusal::NoText;
use lang::code::{Node, Place};
use lang::token::Fixed;

impl Reader<'_> {
    // Writes a statement's last node, and goes past its semicolon.
    fn finish_statement(&mut self, node: Node) -> Result<(), NoText>
        requires { length (snap self.old).code < (snap self.old).code_room }
        ensures { MatchResult result (λ _. (expect the.Semicolon (snap self.old).ahead ≡ Some (snap self.new).ahead) × (snap self.new ≡ advanced (emitted (instr self.old.text.now node) (snap self.old)))) (λ _. expect the.Semicolon (snap self.old).ahead ≡ None) }
    {
        self.emit(node);
        self.expect(Fixed::Semicolon)
    }

    // x = e;
    fn assignment(&mut self, name: Place) -> Result<(), NoText>
        requires room { Room (snap self.old) }
        requires not_call { starts the.LeftParen (snap self.old).ahead ≡ false }
        requires not_store { starts the.LeftBracket (snap self.old).ahead ≡ false }
        ensures reads { Reads (named_statement∞ (name_at self.old.text.now name.0)) (λ s. code_stmt s []) (snap self.old) (snap self.new) result }
        ensures paid { OnOk result (Paid (snap self.old) (snap self.new)) }
    {
        self.expect(Fixed::Gets)?;
        self.expression()?;
        self.finish_statement(Node::Assign(name))?;
        Ok(())
    }

    // x[e] = e;
    fn store(&mut self, name: Place) -> Result<(), NoText>
        requires room { Room (snap self.old) }
        requires not_call { starts the.LeftParen (snap self.old).ahead ≡ false }
        requires store { starts the.LeftBracket (snap self.old).ahead ≡ true }
        ensures reads { Reads (named_statement∞ (name_at self.old.text.now name.0)) (λ s. code_stmt s []) (snap self.old) (snap self.new) result }
        ensures paid { OnOk result (Paid (snap self.old) (snap self.new)) }
    {
        self.advance();
        self.expression()?;
        self.expect(Fixed::RightBracket)?;
        self.expect(Fixed::Gets)?;
        self.expression()?;
        self.finish_statement(Node::Store(name))?;
        Ok(())
    }

    // f(x, ..);
    fn call(&mut self, name: Place) -> Result<(), NoText>
        requires room { Room (snap self.old) }
        requires call { starts the.LeftParen (snap self.old).ahead ≡ true }
        ensures reads { Reads (named_statement∞ (name_at self.old.text.now name.0)) (λ s. code_stmt s []) (snap self.old) (snap self.new) result }
        ensures paid { OnOk result (Paid (snap self.old) (snap self.new)) }
    {
        self.emit(Node::Call(name));
        self.advance();
        self.arguments()?;
        self.finish_statement(Node::EndCall)?;
        Ok(())
    }

    // Behind a name that begins a statement.
    pub fn named_statement(&mut self, name: Place) -> Result<(), NoText>
        requires { Room (snap self.old) }
        ensures reads { Reads (named_statement∞ (name_at self.old.text.now name.0)) (λ s. code_stmt s []) (snap self.old) (snap self.new) result }
        ensures paid { OnOk result (Paid (snap self.old) (snap self.new)) }
    {
        if self.at(Fixed::LeftParen) {
            self.call(name)
        } else if self.at(Fixed::LeftBracket) {
            self.store(name)
        } else {
            self.assignment(name)
        }
    }

    // check b;
    pub fn check(&mut self) -> Result<(), NoText>
        requires room { Room (snap self.old) }
        requires check { starts the.Check (snap self.old).ahead ≡ true }
        ensures reads { Reads statement∞ (λ s. code_stmt s []) (snap self.old) (snap self.new) result }
        ensures paid { OnOk result (Paid (snap self.old) (snap self.new)) }
    {
        let place = Place(self.cursor.start);
        self.advance();
        self.formula()?;
        self.finish_statement(Node::Check(place))?;
        Ok(())
    }

    // any x;
    pub fn havoc(&mut self) -> Result<(), NoText>
        requires room { Room (snap self.old) }
        requires any { starts the.Any (snap self.old).ahead ≡ true }
        ensures reads { Reads statement∞ (λ s. code_stmt s []) (snap self.old) (snap self.new) result }
        ensures paid { OnOk result (Paid (snap self.old) (snap self.new)) }
    {
        self.advance();
        let name = self.name()?;
        self.finish_statement(Node::Havoc(name))?;
        Ok(())
    }
}
