// Pieces of code with their length in front: writing it, and reading conditions and measures.
ghost use Rattle.std.specs.Prelude.{◌≡◌, ℕ, ◌<◌, List, length, None, MatchResult, OnOk};
ghost use Rattle.lang.specs.Instr.{instr, measure};
ghost use Rattle.parse.specs.Parts.{header_instr, sealed, part_code, measure_code};
ghost use Rattle.parse.specs.Reading.{snap, Reads, emitted, Room, Paid};
ghost use Rattle.parse.specs.Unbounded.{sum∞, formula∞, condition∞, measured∞};

use crate::open::Kind;
use crate::reader::Reader;
use crate::refusal::NoText;
use lang::code::Node;
use lang::token::Fixed;

// A node that has the length of the code behind it.
#[derive(Clone, Copy)]
pub enum Header {
    // a formula
    Pre,
    Post,
    Test,
    Invariant,
    // an expression
    Measure,
    // what `all` says
    Scope,
    // a procedure, and its statements
    Extent,
    Body,
    Block(Kind),
}

impl Header {
    fn node(self, length: usize) -> Node
        ensures { (text : List ℕ) → instr text result ≡ header_instr self «length» }
    {
        match self {
            Header::Pre => Node::Pre(length),
            Header::Post => Node::Post(length),
            Header::Test => Node::Test(length),
            Header::Invariant => Node::Invariant(length),
            Header::Measure => Node::Measure(length),
            Header::Scope => Node::Scope(length),
            Header::Extent => Node::Extent(length),
            Header::Body => Node::Body(length),
            Header::Block(Kind::Then) => Node::Then(length),
            Header::Block(Kind::Else) => Node::Else(length),
            Header::Block(Kind::Do) => Node::Do(length),
        }
    }
}

impl Reader<'_> {
    // Writes a header, whose length is not known yet, and gives its index.
    pub fn head(&mut self, header: Header) -> usize
        requires { length (snap self.old).code < (snap self.old).code_room }
        ensures index { result ≡ length (snap self.old).code }
        ensures after { snap self.new ≡ emitted (header_instr header 0) (snap self.old) }
    {
        let at = self.written();
        self.emit(header.node(0));
        at
    }

    // Writes a header's length, now that all behind it is written.
    pub fn seal(&mut self, header: Header, at: usize)
        ensures { snap self.new ≡ sealed header at (snap self.old) }
    {
        let length = self.written().saturating_sub(at).saturating_sub(1);
        self.patch(at, header.node(length));
    }

    // A formula, behind its length.
    pub fn part(&mut self, header: Header) -> Result<(), NoText>
        requires { Room (emitted (header_instr header 0) (snap self.old)) }
        ensures reads { Reads formula∞ (part_code header) (snap self.old) (snap self.new) result }
        ensures paid { OnOk result (Paid (emitted (header_instr header 0) (snap self.old)) (snap self.new)) }
    {
        let at = self.head(header);
        self.formula()?;
        self.seal(header, at);
        Ok(())
    }

    // What gets smaller, behind its length.
    fn measure(&mut self) -> Result<(), NoText>
        requires { Room (emitted (measure 0) (snap self.old)) }
        ensures reads { Reads sum∞ measure_code (snap self.old) (snap self.new) result }
        ensures paid { OnOk result (Paid (emitted (measure 0) (snap self.old)) (snap self.new)) }
    {
        let at = self.head(Header::Measure);
        self.expression()?;
        self.seal(Header::Measure, at);
        Ok(())
    }

    // A word, a formula and a semicolon.
    pub fn condition(&mut self, word: Fixed, header: Header) -> Result<(), NoText>
        requires { Room (snap self.old) }
        ensures reads { Reads (condition∞ word) (part_code header) (snap self.old) (snap self.new) result }
        ensures paid { OnOk result (Paid (snap self.old) (snap self.new)) }
    {
        self.expect(word)?;
        self.part(header)?;
        self.expect(Fixed::Semicolon)?;
        Ok(())
    }

    // `less`, an expression and a semicolon.
    pub fn measured(&mut self) -> Result<(), NoText>
        requires { Room (snap self.old) }
        ensures reads { Reads measured∞ measure_code (snap self.old) (snap self.new) result }
        ensures paid { OnOk result (Paid (snap self.old) (snap self.new)) }
    {
        self.expect(Fixed::Measure)?;
        self.measure()?;
        self.expect(Fixed::Semicolon)?;
        Ok(())
    }
}
