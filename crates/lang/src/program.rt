// A program that has been read: its text, and its code in lent words.
ghost use Rattle.std.specs.Prelude.{◌≡◌};
ghost use Rattle.lang.specs.Base.{same};
ghost use Rattle.lang.specs.Instr.{name_at, number_at};

use crate::code::{Node, Place};
use crate::scan;
use crate::width::Width;
use lent::View;

#[derive(Drop)]
pub struct Program<'a> {
    pub text: &'a [u8],
    pub width: Width,
    pub code: View<'a, Node>,
}

impl<'a> Program<'a> {
    // The name or number that begins at a place.
    pub fn name(&self, at: Place) -> &'a [u8]
        ensures { result.now ≡ name_at self.now.text.now at.0 }
    {
        scan::name(self.text, at.0)
    }

    // The number that is written at a place.
    pub fn number(&self, at: Place) -> u64
        ensures { result ≡ number_at self.now.text.now at.0 }
    {
        scan::number_at(self.text, at.0)
    }

    // Whether the name at a place is these bytes.
    pub fn has_name(&self, at: Place, word: &[u8]) -> bool
        ensures { result ≡ same (name_at self.now.text.now at.0) word.now }
    {
        scan::has_name(self.text, at.0, word)
    }

    // Whether the names at two places are the same.
    pub fn same_name(&self, a: Place, b: Place) -> bool
        ensures { result ≡ same (name_at self.now.text.now a.0) (name_at self.now.text.now b.0) }
    {
        scan::same_name(self.text, a.0, b.0)
    }
}
