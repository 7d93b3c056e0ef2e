// A reader: where it is in the text, the code that it has written, and what is open.
ghost use Rattle.std.specs.Prelude.{◌≡◌, ◌+◌, ◌-◌, ◌<◌, ◌++◌, nat_eq, length, Some, None, MatchResult};
ghost use Rattle.std.specs.Option.{option_to_list};
ghost use Rattle.lang.specs.Grammar.{starts, expect, a_name, a_number};
ghost use Rattle.lang.specs.Instr.{instr, name_at, number_at};
ghost use Rattle.parse.specs.Reading.{snap, advanced, emitted, opened, patched, closed, last_open, last_above};

use crate::open::Open;
use crate::refusal::{Expected, NoText};
use lang::code::{Node, Place};
use lang::scan;
use lang::scan::Cursor;
use lang::token::{Fixed, Token};
use lent::Table;

// Room for what is ahead is asked for by each method and is no invariant: once a node is written, and before its token is passed,
// there may be less.
#[derive(Drop)]
pub struct Reader<'a> {
    pub text: &'a [u8],
    pub cursor: Cursor,
    pub code: Table<'a, Node>,
    pub pending: Table<'a, Open>,
}

impl Reader<'_> {
    // How many nodes have been written.
    pub fn written(&self) -> usize
        ensures { result ≡ length (snap self.now).code }
    {
        self.code.len()
    }

    // How many parts are open.
    pub fn height(&self) -> usize
        ensures { result ≡ length (snap self.now).pending }
    {
        self.pending.len()
    }

    // Past the token at hand, if there is one.
    pub fn advance(&mut self)
        ensures { snap self.new ≡ advanced (snap self.old) }
    {
        if let Token::End = self.cursor.token {
            return;
        }
        self.cursor = scan::scan(self.text, self.cursor.end);
    }

    pub fn emit(&mut self, node: Node)
        requires { length (snap self.old).code < (snap self.old).code_room }
        ensures { snap self.new ≡ emitted (instr self.old.text.now node) (snap self.old) }
    {
        let _ = self.code.push(node);
    }

    pub fn begin(&mut self, part: Open)
        requires { length (snap self.old).pending < (snap self.old).pending_room }
        ensures { snap self.new ≡ opened part (snap self.old) }
    {
        let _ = self.pending.push(part);
    }

    // The part that was begun last, now whole.
    pub fn finish(&mut self) -> Option<Open>
        ensures value { result ≡ last_open (snap self.old).pending }
        ensures after { snap self.new ≡ closed (snap self.old) }
    {
        self.pending.pop()
    }

    // The part that was begun last, above the first `base` open parts.
    pub fn last(&self, base: usize) -> Option<Open>
        ensures { result ≡ last_above base (snap self.now).pending }
    {
        let height = self.height();
        if height <= base {
            return None;
        }
        self.pending.get(height - 1)
    }

    // Writes a node in the place of another.
    pub fn patch(&mut self, at: usize, node: Node)
        ensures { snap self.new ≡ patched at (instr self.old.text.now node) (snap self.old) }
    {
        let _ = self.code.set(at, node);
    }

    // Is that token at hand?
    pub fn at(&self, token: Fixed) -> bool
        ensures { result ≡ starts token (snap self.now).ahead }
    {
        matches!(self.cursor.token, Token::Fixed(f) if token.is(f))
    }

    // Is nothing left of the text?
    pub fn at_end(&self) -> bool
        ensures { result ≡ nat_eq (length (snap self.now).ahead) 0 }
    {
        matches!(self.cursor.token, Token::End)
    }

    // What is missing at the token at hand.
    pub fn missing(&self, expected: Expected) -> NoText
        ensures { result ≡ record { at = self.now.cursor.start; expected = expected } }
    {
        NoText {
            at: self.cursor.start,
            expected,
        }
    }

    // Past the token, which is to be at hand.
    pub fn expect(&mut self, token: Fixed) -> Result<(), NoText>
        ensures { MatchResult result (λ _. (expect token (snap self.old).ahead ≡ Some (snap self.new).ahead) × (snap self.new ≡ advanced (snap self.old))) (λ _. expect token (snap self.old).ahead ≡ None) }
    {
        if !self.at(token) {
            return Err(self.missing(Expected::Token(token)));
        }
        self.advance();
        Ok(())
    }

    // Past a name, and where it stands.
    pub fn name(&mut self) -> Result<Place, NoText>
        ensures { MatchResult result (λ p. (a_name (snap self.old).ahead ≡ Some (name_at self.old.text.now p.0, (snap self.new).ahead)) × (snap self.new ≡ advanced (snap self.old))) (λ _. a_name (snap self.old).ahead ≡ None) }
    {
        let Token::Name = self.cursor.token else {
            return Err(self.missing(Expected::Name));
        };
        let place = Place(self.cursor.start);
        self.advance();
        Ok(place)
    }

    // Past a number, and where it stands.
    pub fn number(&mut self) -> Result<Place, NoText>
        ensures { MatchResult result (λ p. (a_number (snap self.old).ahead ≡ Some (number_at self.old.text.now p.0, (snap self.new).ahead)) × (snap self.new ≡ advanced (snap self.old))) (λ _. a_number (snap self.old).ahead ≡ None) }
    {
        let Token::Number = self.cursor.token else {
            return Err(self.missing(Expected::Number));
        };
        let place = Place(self.cursor.start);
        self.advance();
        Ok(place)
    }
}
