ghost use Rattle.std.specs.Prelude.{◌≡◌, ◌-◌, ◌≤◌, [], length, take, slice_set};
ghost use Rattle.std.specs.List.{slice_get};

use super::raw::append_raw;
use base::{Fault, append};

// A run of items that grows within a slice that the caller lends: the first `len` of them are held. There is no heap.
#[derive(Drop)]
pub struct Store<'a, T> {
    items: &'a mut [T],
    len: usize,
    ghost within: { len ≤ length items.now },
}

impl<'a, T: Copy> Store<'a, T> {
    ghost use Rattle.store.specs.Held.{lent, held, room, Refilled, AppendsTo, AppendsWithin};

    // An empty store within the slice.
    pub fn new(items: &'a mut [T]) -> Store<'a, T>
        ensures empty { held result ≡ [] }
        ensures memory { lent result ≡ items.old }
    {
        Store { items, len: 0 }
    }

    // How many items the store holds.
    pub fn count(&self) -> usize
        ensures { result ≡ length (held self.now) }
    {
        self.items().len()
    }

    // How many items the store has room for.
    pub fn room(&self) -> usize
        ensures { result ≡ room self.now }
    {
        self.items.len()
    }

    // The items that the store holds.
    pub fn items(&self) -> &[T]
        ensures { result.now ≡ held self.now }
    {
        &self.items[0..self.len]
    }

    // The item at i, if the store holds one there.
    pub fn get(&self, i: usize) -> Option<T>
        ensures { result ≡ slice_get (held self.now) i }
    {
        self.items().get(i).copied()
    }

    // Puts an item in the place of the one at i, if the store holds one there.
    pub fn set(&mut self, i: usize, item: T)
        ensures { Refilled self.old (slice_set (held self.old) i item) self.new }
    {
        if i < self.len {
            self.items[i] = item;
        }
    }

    // Holds nothing from now on. The memory stays as it is.
    pub fn clear(&mut self)
        ensures empty { held self.new ≡ [] }
        ensures memory { lent self.new ≡ lent self.old }
    {
        self.len = 0;
    }

    // Appends all of `more`, or refuses it whole.
    pub fn append(&mut self, more: &[T]) -> Result<(), Fault>
        ensures { AppendsTo self.old more.now self.new result }
    {
        self.len = append(self.items, self.len, more)?;
        Ok(())
    }

    // Appends the `len` items from `start` on, which the store holds itself, or refuses them all.
    pub fn append_within(&mut self, start: usize, len: usize) -> Result<(), Fault>
        ensures { AppendsWithin self.old start len self.new result }
    {
        if start > self.len || len > self.len - start || len > self.items.len() - self.len {
            return Err(Fault::Overfull);
        }
        self.items.copy_within(start..start + len, self.len);
        self.len += len;
        Ok(())
    }

    // Holds `count` items less from now on, or nothing if it holds fewer. The memory stays as it is.
    pub fn shorten(&mut self, count: usize)
        ensures fewer { held self.new ≡ take (length (held self.old) - count) (held self.old) }
        ensures memory { lent self.new ≡ lent self.old }
    {
        self.len = self.len.saturating_sub(count);
    }
}

impl Store<'_, u8> {
    ghost use Rattle.store.specs.Held.{AppendsRaw};

    // Appends the raw template text of the text from `start` on, which the store holds itself, or refuses it whole.
    pub fn append_raw(&mut self, start: usize) -> Result<(), Fault>
        ensures { AppendsRaw self.old start self.new result }
    {
        self.len = append_raw(self.items, start, self.len)?;
        Ok(())
    }
}
