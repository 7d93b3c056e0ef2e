ghost use Rattle.std.specs.Prelude.{◌≡◌, ℕ, ◌/◌, ◌≤◌, [], ◌∷◌, ◌++◌, length, take, is_some, MatchResult, nat_lt, slice_set};
ghost use Rattle.std.specs.Option.{option_to_list};
ghost use Rattle.std.specs.List.{slice_get};
ghost use Rattle.lent.specs.Tables.{items, capacity};
ghost use Rattle.lent.specs.Views.{kept};

use super::{Full, Mark, Record, Table};
use crate::view::View;
use std::marker::PhantomData;

impl<'a, R: Record> Table<'a, R> {
    // An empty table over all the words.
    pub fn new(words: &'a mut [u64]) -> Table<'a, R>
        ensures empty { items R.decoded result ≡ [] }
        ensures capacity { capacity result ≡ length words.old / 2 }
    {
        Table {
            pairs: words.as_chunks_mut().0,
            len: 0,
            kind: PhantomData,
        }
    }

    pub fn len(&self) -> usize
        ensures { result ≡ length (items R.decoded self.now) }
    {
        self.len
    }

    pub fn get(&self, i: usize) -> Option<R>
        ensures { result ≡ slice_get (items R.decoded self.now) i }
    {
        let [a, b] = *self.pairs[..self.len].get(i)?;
        Some(R::decode(a, b))
    }

    // One record more at the end, or a refusal that leaves the table as it was.
    pub fn push(&mut self, x: R) -> Result<(), Full>
        ensures cases { MatchResult result (λ _. items R.decoded self.new ≡ items R.decoded self.old ++ x ∷ []) (λ _. (items R.decoded self.new ≡ items R.decoded self.old) × (capacity self.old ≤ length (items R.decoded self.old))) }
        ensures capacity { capacity self.new ≡ capacity self.old }
    {
        if self.len >= self.pairs.len() {
            return Err(Full);
        }
        let (a, b) = x.encode();
        self.pairs[self.len] = [a, b];
        self.len += 1;
        Ok(())
    }

    // Writes another record in the place of the one at `i`, and gives the one that stood there. Nothing changes where none did.
    pub fn set(&mut self, i: usize, x: R) -> Option<R>
        ensures items { items R.decoded self.new ≡ slice_set (items R.decoded self.old) i x }
        ensures replaced { result ≡ slice_get (items R.decoded self.old) i }
        ensures capacity { capacity self.new ≡ capacity self.old }
    {
        let replaced = self.get(i);
        if i < self.len {
            let (a, b) = x.encode();
            self.pairs[i] = [a, b];
        }
        replaced
    }

    // The last record, taken off the table.
    pub fn pop(&mut self) -> Option<R>
        ensures items { items R.decoded self.old ≡ items R.decoded self.new ++ option_to_list result }
        ensures capacity { capacity self.new ≡ capacity self.old }
        ensures test { is_some result ≡ nat_lt 0 (length (items R.decoded self.old)) }
    {
        self.len = self.len.checked_sub(1)?;
        let [a, b] = self.pairs[self.len];
        Some(R::decode(a, b))
    }

    // Keeps the first `n` records, or all if there are no more.
    pub fn truncate(&mut self, n: usize)
        ensures items { items R.decoded self.new ≡ take n (items R.decoded self.old) }
        ensures capacity { capacity self.new ≡ capacity self.old }
    {
        if n < self.len {
            self.len = n;
        }
    }

    pub fn mark(&self) -> Mark
        ensures { result.height ≡ length (items R.decoded self.now) }
    {
        Mark { height: self.len() }
    }

    // Takes off what was pushed since the mark.
    pub fn release(&mut self, mark: Mark)
        ensures items { items R.decoded self.new ≡ take mark.height (items R.decoded self.old) }
        ensures capacity { capacity self.new ≡ capacity self.old }
    {
        self.truncate(mark.height);
    }

    // The records, to be read from now on; the words go with them, so the table has no room left.
    pub fn freeze(&mut self) -> View<'a, R>
        ensures value { kept R.decoded result ≡ items R.decoded self.old }
        ensures items { items R.decoded self.new ≡ [] }
        ensures capacity { capacity self.new ≡ 0 }
    {
        let len = std::mem::take(&mut self.len);
        let pairs: &'a mut [[u64; 2]] = std::mem::take(&mut self.pairs);
        View {
            pairs: &pairs[..len],
            kind: PhantomData,
        }
    }
}
