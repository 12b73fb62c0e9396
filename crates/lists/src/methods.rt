// What a short list holds, the oldest item first.
ghost use Rattle.std.specs.Prelude.{◌≡◌, [], length, take, nat_le, slice_get, ◌==◌};
ghost use Rattle.lists.specs.ShortLists.{items};
ghost use Rattle.lists.specs.Pushing.{pushed, with_item};

use crate::{Full, ShortList};

impl<T: Copy, const N: usize> ShortList<T, N> {
    // An empty list. `unused` fills the places where no item stands, and is never seen.
    pub fn new(unused: T) -> ShortList<T, N>
        ensures { items result ≡ [] }
    {
        ShortList {
            slots: [unused; N],
            used: 0,
        }
    }

    pub fn len(&self) -> usize
        ensures { result ≡ length (items self.now) }
    {
        self.as_slice().len()
    }

    pub fn is_empty(&self) -> bool
        ensures { result ≡ (length (items self.now) == 0) }
    {
        self.len() == 0
    }

    pub fn is_full(&self) -> bool
        ensures { result ≡ nat_le N (length (items self.now)) }
    {
        self.len() >= N
    }

    pub fn as_slice(&self) -> &[T]
        ensures { result.now ≡ items self.now }
    {
        &self.slots[..self.used]
    }

    // The item at a place, counted from 0, or none.
    pub fn get(&self, place: usize) -> Option<T>
        ensures { result ≡ slice_get (items self.now) place }
    {
        self.as_slice().get(place).copied()
    }

    // Puts an item behind the others, if there is room. A full list stays as it was.
    pub fn push(&mut self, item: T) -> Result<(), Full>
        ensures answer { result ≡ pushed N (items self.old) }
        ensures items { items self.new ≡ with_item N item (items self.old) }
    {
        if self.is_full() {
            return Err(Full);
        }
        self.slots[self.used] = item;
        self.used += 1;
        Ok(())
    }

    // Keeps no more than so many items, the oldest ones.
    pub fn truncate(&mut self, count: usize)
        ensures { items self.new ≡ take count (items self.old) }
    {
        self.used = self.used.min(count);
    }
}
