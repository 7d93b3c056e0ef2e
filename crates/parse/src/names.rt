// Reads the names that a call hands over.
ghost use Rattle.std.specs.Prelude.{◌≡◌, [], None, MatchResult, OnOk};
ghost use Rattle.lang.specs.Code.{code_args};
ghost use Rattle.parse.specs.Reading.{snap, Reads, Room, Paid};
ghost use Rattle.parse.specs.Unbounded.{maybe_names∞};

use crate::reader::Reader;
use crate::refusal::NoText;
use lang::code::Node;
use lang::token::Fixed;

impl Reader<'_> {
    // Names with commas, up to the parenthesis, which is read too.
    pub fn arguments(&mut self) -> Result<(), NoText>
        requires { Room (snap self.old) }
        ensures reads { Reads maybe_names∞ (λ xs. code_args xs []) (snap self.old) (snap self.new) result }
        ensures paid { OnOk result (Paid (snap self.old) (snap self.new)) }
    {
        if self.at(Fixed::RightParen) {
            self.advance();
            return Ok(());
        }
        loop {
            let place = self.name()?;
            self.emit(Node::Arg(place));
            if !self.at(Fixed::Comma) {
                return self.expect(Fixed::RightParen);
            }
            self.advance();
        }
    }
}
