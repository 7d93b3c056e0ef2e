// Reads blocks of statements. Blocks that nest are kept in a table and not on the machine's stack.
ghost use Rattle.std.specs.Prelude.{◌≡◌, ◌<◌, ◌≤◌, true, false, [], length, Some, None, MatchResult, OnOk};
ghost use Rattle.lang.specs.Code.{code_stmt, code_block};
ghost use Rattle.lang.specs.Grammar.{starts, onward, expect, else_head};
ghost use Rattle.lang.specs.declared.token.Fixed.TheVariants as the;
ghost use Rattle.parse.specs.InBlock.{AtStatement, BlockWhole, Headed, Closed, then_code, loop_code, block_opened};
ghost use Rattle.parse.specs.Parts.{sealed};
ghost use Rattle.parse.specs.Reading.{Snap, snap, Reads, advanced, Room, Paid};
ghost use Rattle.parse.specs.Unbounded.{if_head∞, while_head∞, statement∞, block∞};
ghost use Rattle.parse.specs.declared.open.Kind.TheVariants.{Then, Else, Do};
ghost use Rattle.parse.specs.declared.parts.Header.TheVariants.{Block};

use crate::open::{Kind, Open};
use crate::parts::Header;
use crate::reader::Reader;
use crate::refusal::{Expected, NoText};
use lang::code::{Node, Place};
use lang::token::{Fixed, Token};

impl Reader<'_> {
    // Past the brace of a block, which is open from now on.
    fn open_block(&mut self, kind: Kind) -> Result<(), NoText>
        requires { Room (snap self.old) }
        ensures reads { MatchResult result (λ _. (expect the.LeftBrace (snap self.old).ahead ≡ Some (snap self.new).ahead) × (snap self.new ≡ block_opened kind (snap self.old))) (λ _. expect the.LeftBrace (snap self.old).ahead ≡ None) }
        ensures paid { OnOk result (Paid (snap self.old) (snap self.new)) }
    {
        self.expect(Fixed::LeftBrace)?;
        let at = self.head(Header::Block(kind));
        self.begin(Open::Braces(kind, at));
        Ok(())
    }

    // if b {
    fn if_head(&mut self) -> Result<(), NoText>
        requires room { Room (snap self.old) }
        requires first { starts the.If (snap self.old).ahead ≡ true }
        ensures reads { MatchResult result (λ _. Headed (λ ts. if_head∞ (onward ts)) then_code Then (snap self.old) (snap self.new)) (λ _. if_head∞ (onward (snap self.old).ahead) ≡ None) }
        ensures paid { OnOk result (Paid (snap self.old) (snap self.new)) }
    {
        self.emit(Node::If(Place(self.cursor.start)));
        self.advance();
        self.formula()?;
        self.open_block(Kind::Then)?;
        Ok(())
    }

    // while b keep b; less e; {
    fn while_head(&mut self) -> Result<(), NoText>
        requires room { Room (snap self.old) }
        requires first { starts the.While (snap self.old).ahead ≡ true }
        ensures reads { MatchResult result (λ _. Headed (λ ts. while_head∞ (onward ts)) loop_code Do (snap self.old) (snap self.new)) (λ _. while_head∞ (onward (snap self.old).ahead) ≡ None) }
        ensures paid { OnOk result (Paid (snap self.old) (snap self.new)) }
    {
        self.emit(Node::While(Place(self.cursor.start)));
        self.advance();
        self.part(Header::Test)?;
        self.condition(Fixed::Keep, Header::Invariant)?;
        self.measured()?;
        self.open_block(Kind::Do)?;
        Ok(())
    }

    // else {
    fn else_head(&mut self, at: usize) -> Result<(), NoText>
        requires { Room (snap self.old) }
        ensures reads { MatchResult result (λ _. (else_head (snap self.old).ahead ≡ Some (snap self.new).ahead) × (snap self.new ≡ block_opened Else (advanced (sealed (Block Then) at (snap self.old))))) (λ _. else_head (snap self.old).ahead ≡ None) }
        ensures paid { OnOk result (Paid (snap self.old) (snap self.new)) }
    {
        self.seal(Header::Block(Kind::Then), at);
        self.expect(Fixed::Else)?;
        self.open_block(Kind::Else)?;
        Ok(())
    }

    // Behind a block inside a statement: its other block, or the statement's end.
    fn end_block(&mut self) -> Result<(), NoText>
        requires { Room (snap self.old) }
        ensures reads { (before : Snap) → length before.pending < length (snap self.old).pending → BlockWhole before (snap self.old) → MatchResult result (λ _. AtStatement before (snap self.new)) (λ _. block∞ before.ahead ≡ None) }
        ensures paid { OnOk result (Paid (snap self.old) (snap self.new)) }
        ensures onward { OnOk result (length (snap self.new).ahead ≤ length (snap self.old).ahead) }
    {
        let Some(part) = self.finish() else {
            return Err(self.missing(Expected::Statement));
        };
        // Nothing else has statements inside.
        let Open::Braces(kind, at) = part else {
            return Err(self.missing(Expected::Statement));
        };
        match kind {
            Kind::Then => self.else_head(at)?,
            Kind::Else => {
                self.seal(Header::Block(kind), at);
                self.emit(Node::EndIf);
            }
            Kind::Do => {
                self.seal(Header::Block(kind), at);
                self.emit(Node::EndWhile);
            }
        }
        Ok(())
    }

    // A statement that has no statements inside.
    fn simple_statement(&mut self) -> Result<(), NoText>
        requires room { Room (snap self.old) }
        requires not_if { starts the.If (snap self.old).ahead ≡ false }
        requires not_while { starts the.While (snap self.old).ahead ≡ false }
        ensures reads { Reads statement∞ (λ s. code_stmt s []) (snap self.old) (snap self.new) result }
        ensures paid { OnOk result (Paid (snap self.old) (snap self.new)) }
    {
        if self.at(Fixed::Check) {
            return self.check();
        }
        if self.at(Fixed::Any) {
            return self.havoc();
        }
        let Token::Name = self.cursor.token else {
            return Err(self.missing(Expected::Statement));
        };
        let name = Place(self.cursor.start);
        self.advance();
        self.named_statement(name)
    }

    // A statement, or its head up to the block inside.
    fn statement(&mut self) -> Result<(), NoText>
        requires { Room (snap self.old) }
        ensures reads { (before : Snap) → starts the.RightBrace (snap self.old).ahead ≡ false → AtStatement before (snap self.old) → MatchResult result (λ _. AtStatement before (snap self.new)) (λ _. block∞ before.ahead ≡ None) }
        ensures paid { OnOk result (Paid (snap self.old) (snap self.new)) }
        ensures shorter { OnOk result (length (snap self.new).ahead < length (snap self.old).ahead) }
    {
        if self.at(Fixed::If) {
            self.if_head()
        } else if self.at(Fixed::While) {
            self.while_head()
        } else {
            self.simple_statement()
        }
    }

    // Behind a brace: was it that of the outermost block?
    fn close(&mut self, base: usize) -> Result<bool, NoText>
        requires room { Room (snap self.old) }
        requires brace { starts the.RightBrace (snap self.old).ahead ≡ true }
        ensures reads { (before : Snap) → base ≡ length before.pending → AtStatement before (snap self.old) → MatchResult result (λ done. Closed before (snap self.new) done) (λ _. block∞ before.ahead ≡ None) }
        ensures paid { OnOk result (Paid (snap self.old) (snap self.new)) }
        ensures shorter { OnOk result (length (snap self.new).ahead < length (snap self.old).ahead) }
    {
        self.advance();
        if self.height() <= base {
            return Ok(true);
        }
        self.end_block()?;
        Ok(false)
    }

    // The statements of a block, up to its brace, which is read too.
    pub fn block(&mut self) -> Result<(), NoText>
        requires { Room (snap self.old) }
        ensures reads { Reads block∞ (λ c. code_block c []) (snap self.old) (snap self.new) result }
        ensures paid { OnOk result (Paid (snap self.old) (snap self.new)) }
    {
        let base = self.height();
        loop {
            if !self.at(Fixed::RightBrace) {
                self.statement()?;
                continue;
            }
            if self.close(base)? {
                return Ok(());
            }
        }
    }
}
