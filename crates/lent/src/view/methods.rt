ghost use Rattle.std.specs.Prelude.{◌≡◌, length};
ghost use Rattle.std.specs.List.{slice_get};
ghost use Rattle.lent.specs.Views.{kept};

use super::View;
use crate::table::Record;

impl<'a, R: Record> View<'a, R> {
    pub fn len(&self) -> usize
        ensures { result ≡ length (kept R.decoded self.now) }
    {
        self.pairs.len()
    }

    // The two lines of a table's `get` again: a function for both would be longer.
    pub fn get(&self, i: usize) -> Option<R>
        ensures { result ≡ slice_get (kept R.decoded self.now) i }
    {
        let [a, b] = *self.pairs.get(i)?;
        Some(R::decode(a, b))
    }
}
