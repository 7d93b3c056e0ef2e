// What is said of a text that is refused: FILE:LINE:COL, and why.
#![tactic(auto)]

ghost use Rattle.std.specs.Prelude.{◌≡◌, take, Some, IfOk, string_bytes};
ghost use Rattle.lang.specs.Positions.{position_behind};
ghost use Rattle.report.specs.Places.{place_text, Tells};

use lang::position::{Position, position_of};
use lang::scan::scan;
use lang::token::Token;
use parse::refusal::NoText;
use sound::Unsound;
use std::alloc::{AllocError, Global};
use std::fmt;

// A text, and the name of its file.
#[derive(Clone, Copy)]
pub struct Source<'a> {
    pub file: &'a str,
    pub text: &'a [u8],
}

// FILE:LINE:COL, as editors read it.
#[derive(Clone, Copy)]
struct Spot<'a> {
    file: &'a str,
    position: Position,
}

impl fmt::Display for Spot<'_> {
    ghost output = { λ s. Some (place_text s.file.now s.position) };

    fn fmt<W: fmt::Write>(&self, f: &mut fmt::Formatter<W>) -> fmt::Result {
        let file = self.file;
        let Position { line, column } = self.position;
        write!(f, "{file}:{line}:{column}")
    }
}

impl<'a> Source<'a> {
    fn spot(&self, at: usize) -> Spot<'a>
        ensures file { result.file.now ≡ self.now.file.now }
        ensures position { result.position ≡ position_behind (take at self.now.text.now) }
    {
        Spot {
            file: self.file,
            position: position_of(self.text, at),
        }
    }

    // The place of a byte of the text.
    pub fn place(&self, heap: Global, at: usize) -> Result<String, AllocError>
        ensures { IfOk result (λ s. string_bytes s ≡ place_text self.now.file.now (position_behind (take at self.now.text.now))) }
    {
        let spot = self.spot(at);
        format!(in heap; "{spot}")
    }

    // The token at a byte of the text, as it is written, if it is short.
    fn found(&self, heap: Global, at: usize) -> Result<String, AllocError> {
        let c = scan(self.text, at);
        if let Token::End = c.token {
            return String::from_str(heap, "the end of the text");
        }
        let start = c.start;
        let end = c.end;
        if end > self.text.len() || end - start > 40 {
            return String::from_str(heap, "a long word");
        }
        let word = String::from_utf8_lossy(heap, &self.text[start..end])?;
        format!(in heap; "`{word}`")
    }

    // A message about a byte of the text: where it stands, and what is told of it.
    fn message(&self, heap: Global, at: usize, why: &str) -> Result<String, AllocError>
        ensures { IfOk result (λ s. Tells self.now.file.now self.now.text.now at (string_bytes s)) }
    {
        let spot = self.spot(at);
        format!(in heap; "{spot}: {why}")
    }

    // Why the text cannot be read.
    pub fn no_text(&self, heap: Global, e: NoText) -> Result<String, AllocError>
        ensures { IfOk result (λ s. Tells self.now.file.now self.now.text.now e.at (string_bytes s)) }
    {
        let expected = e.expected;
        let found = self.found(heap, e.at)?;
        let why = format!(in heap; "no text: expected {expected}, found {found}")?;
        self.message(heap, e.at, why.as_str())
    }

    // Why its program is not sound.
    pub fn not_sound(&self, heap: Global, e: Unsound) -> Result<String, AllocError>
        ensures { IfOk result (λ s. Tells self.now.file.now self.now.text.now e.at.0 (string_bytes s)) }
    {
        let rule = e.rule;
        let why = format!(in heap; "not sound: {rule}")?;
        self.message(heap, e.at.0, why.as_str())
    }
}
