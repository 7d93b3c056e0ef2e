// Reads the declarations of parameters and locals.
ghost use Rattle.std.specs.Prelude.{◌≡◌, ℕ, ◌<◌, List, [], ◌∷◌, length, None, MatchResult, OnOk};
ghost use Rattle.lang.specs.Base.{Word};
ghost use Rattle.lang.specs.Code.{code_size, code_params, code_locals};
ghost use Rattle.lang.specs.Grammar.{declaration};
ghost use Rattle.lang.specs.Instr.{instr, name_at, scalar};
ghost use Rattle.parse.specs.Declaring.{role_instr, role_code, sized};
ghost use Rattle.parse.specs.Listed.{codes};
ghost use Rattle.parse.specs.Reading.{snap, Reads, emitted, Room, Paid};
ghost use Rattle.parse.specs.Unbounded.{declarations∞, parameters∞, local_variables∞};

use crate::reader::Reader;
use crate::refusal::{Expected, NoText};
use lang::code::{Node, Place};
use lang::scan::number_at;
use lang::token::Fixed;

// What is declared. An enum, not a function that makes the node: clauses name by it what is written.
#[derive(Clone, Copy)]
pub enum Role {
    Parameter,
    Local,
}

impl Role {
    fn node(self, name: Place) -> Node
        ensures { (text : List ℕ) → instr text result ≡ role_instr self (name_at text name.0) }
    {
        match self {
            Role::Parameter => Node::Param(name),
            Role::Local => Node::Local(name),
        }
    }
}

impl Reader<'_> {
    // A row's length, with the brackets around it, or nothing, which declares a number.
    fn size(&mut self) -> Result<(), NoText>
        requires { Room (emitted scalar (snap self.old)) }
        ensures reads { (x : Word) → Reads (sized x) (λ d. code_size d ∷ []) (snap self.old) (snap self.new) result }
        ensures paid { OnOk result (Paid (emitted scalar (snap self.old)) (snap self.new)) }
    {
        if !self.at(Fixed::LeftBracket) {
            self.emit(Node::Scalar);
            return Ok(());
        }
        self.advance();
        let length = self.number()?;
        if number_at(self.text, length.0) == 0 {
            return Err(NoText {
                at: length.0,
                expected: Expected::Length,
            });
        }
        self.emit(Node::Row(length));
        self.expect(Fixed::RightBracket)?;
        Ok(())
    }

    fn declaration(&mut self, role: Role) -> Result<(), NoText>
        requires { Room (snap self.old) }
        ensures reads { Reads declaration (λ d. role_code role d []) (snap self.old) (snap self.new) result }
        ensures paid { OnOk result (Paid (snap self.old) (snap self.new)) }
        ensures shorter { OnOk result (length (snap self.new).ahead < length (snap self.old).ahead) }
    {
        let name = self.name()?;
        self.emit(role.node(name));
        self.size()?;
        Ok(())
    }

    // Declarations with commas, up to that token, which is read too.
    fn declarations(&mut self, role: Role, end: Fixed) -> Result<(), NoText>
        requires { Room (snap self.old) }
        ensures reads { Reads (declarations∞ «end») (codes (role_code role)) (snap self.old) (snap self.new) result }
        ensures paid { OnOk result (Paid (snap self.old) (snap self.new)) }
    {
        loop {
            self.declaration(role)?;
            if !self.at(Fixed::Comma) {
                return self.expect(end);
            }
            self.advance();
        }
    }

    // Parameters, up to the parenthesis, which is read too.
    pub fn parameters(&mut self) -> Result<(), NoText>
        requires { Room (snap self.old) }
        ensures reads { Reads parameters∞ (λ ds. code_params ds []) (snap self.old) (snap self.new) result }
        ensures paid { OnOk result (Paid (snap self.old) (snap self.new)) }
    {
        if self.at(Fixed::RightParen) {
            self.advance();
            return Ok(());
        }
        self.declarations(Role::Parameter, Fixed::RightParen)
    }

    // `var` and the locals, or nothing.
    pub fn local_variables(&mut self) -> Result<(), NoText>
        requires { Room (snap self.old) }
        ensures reads { Reads local_variables∞ (λ ds. code_locals ds []) (snap self.old) (snap self.new) result }
        ensures paid { OnOk result (Paid (snap self.old) (snap self.new)) }
    {
        if !self.at(Fixed::Var) {
            return Ok(());
        }
        self.advance();
        self.declarations(Role::Local, Fixed::Semicolon)
    }
}
