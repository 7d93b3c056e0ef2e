// Reads procedures.
ghost use Rattle.std.specs.Prelude.{◌≡◌, ◌+◌, ◌<◌, true, [], length, IfOk, None, MatchResult, OnOk};
ghost use Rattle.lang.specs.Code.{code_proc, code_procs};
ghost use Rattle.lang.specs.Grammar.{starts, onward};
ghost use Rattle.lang.specs.Instr.{body};
ghost use Rattle.lang.specs.declared.token.Fixed.TheVariants as the;
ghost use Rattle.parse.specs.Procedures.{signature∞, terms∞, body∞, signature_code, terms_code, block_code, body_code};
ghost use Rattle.parse.specs.Reading.{snap, Reads, emitted, Room, Paid};
ghost use Rattle.parse.specs.Unbounded.{block∞, procedure∞, procedures∞};
ghost use Rattle.parse.specs.Whole.{AllRead, WholeRead, program∞};

use crate::parts::Header;
use crate::reader::Reader;
use crate::refusal::NoText;
use lang::code::Node;
use lang::scan::number_at;
use lang::token::Fixed;

impl Reader<'_> {
    // f(x, ..); gives the index of the node that is to have the procedure's length.
    fn signature(&mut self) -> Result<usize, NoText>
        requires { Room (snap self.old) }
        ensures reads { Reads signature∞ signature_code (snap self.old) (snap self.new) result }
        ensures paid { OnOk result (Paid (snap self.old) (snap self.new)) }
        ensures extent { IfOk result (λ at. at ≡ length (snap self.old).code + 1) }
    {
        let name = self.name()?;
        self.emit(Node::Proc(name));
        let extent = self.head(Header::Extent);
        self.expect(Fixed::LeftParen)?;
        self.parameters()?;
        Ok(extent)
    }

    // pre b; post b; less e;
    fn terms(&mut self) -> Result<(), NoText>
        requires { Room (snap self.old) }
        ensures reads { Reads terms∞ terms_code (snap self.old) (snap self.new) result }
        ensures paid { OnOk result (Paid (snap self.old) (snap self.new)) }
    {
        self.condition(Fixed::Pre, Header::Pre)?;
        self.condition(Fixed::Post, Header::Post)?;
        self.measured()?;
        Ok(())
    }

    // A procedure's statements, behind their length.
    fn statements(&mut self) -> Result<(), NoText>
        requires { Room (emitted (body 0) (snap self.old)) }
        ensures reads { Reads block∞ block_code (snap self.old) (snap self.new) result }
        ensures paid { OnOk result (Paid (emitted (body 0) (snap self.old)) (snap self.new)) }
    {
        let at = self.head(Header::Body);
        self.block()?;
        self.seal(Header::Body, at);
        Ok(())
    }

    // { var x, ..; .. }
    fn body(&mut self) -> Result<(), NoText>
        requires { Room (snap self.old) }
        ensures reads { Reads body∞ body_code (snap self.old) (snap self.new) result }
        ensures paid { OnOk result (Paid (snap self.old) (snap self.new)) }
    {
        self.expect(Fixed::LeftBrace)?;
        self.local_variables()?;
        self.statements()?;
        self.emit(Node::EndProc);
        Ok(())
    }

    // Behind `proc`: a whole procedure.
    fn procedure(&mut self) -> Result<(), NoText>
        requires { Room (snap self.old) }
        ensures reads { Reads procedure∞ (λ q. code_proc q []) (snap self.old) (snap self.new) result }
        ensures paid { OnOk result (Paid (snap self.old) (snap self.new)) }
    {
        let extent = self.signature()?;
        self.terms()?;
        self.body()?;
        self.seal(Header::Extent, extent);
        Ok(())
    }

    // Procedures, up to the end of the text.
    pub fn procedures(&mut self) -> Result<(), NoText>
        requires { Room (snap self.old) }
        ensures { MatchResult result (λ _. AllRead (snap self.old) (snap self.new)) (λ _. procedures∞ (snap self.old).ahead ≡ None) }
    {
        while !self.at_end() {
            self.expect(Fixed::Proc)?;
            self.procedure()?;
        }
        Ok(())
    }

    // A whole text; gives the width.
    pub fn program(&mut self) -> Result<u64, NoText>
        requires { Room (snap self.old) }
        ensures { MatchResult result (λ w. WholeRead (snap self.old) (snap self.new) w) (λ _. program∞ (snap self.old).ahead ≡ None) }
    {
        self.expect(Fixed::Width)?;
        let width = self.number()?;
        self.expect(Fixed::Semicolon)?;
        self.procedures()?;
        Ok(number_at(self.text, width.0))
    }
}
