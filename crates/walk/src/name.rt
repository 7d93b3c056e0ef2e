// Names of the text.
ghost use Rattle.std.specs.Prelude.{◌≡◌};
ghost use Rattle.lang.specs.Base.{same};
ghost use Rattle.walk.specs.Walking.{word};

use lang::code::Place;
use lang::program::Program;

// A name, and where it stands.
#[derive(Clone, Copy)]
pub struct Name<'p> {
    pub at: Place,
    pub text: &'p [u8],
}

impl<'p> Name<'p> {
    // The name that stands at a place.
    pub fn at(program: &'p Program<'p>, place: Place) -> Name<'p>
        ensures at { result.at ≡ place }
        ensures text { result.text.now ≡ word program.now place }
    {
        Name {
            at: place,
            text: program.name(place),
        }
    }

    // Is it spelled like these bytes?
    pub fn is(self, word: &[u8]) -> bool
        ensures { result ≡ same self.entry.text.now word.now }
    {
        self.text == word
    }
}
