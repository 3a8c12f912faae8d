// Pieces of the stores.
ghost use Rattle.std.specs.Prelude.{◌≡◌};

use std::marker::PhantomData;

// A piece of a store of `T`: where it begins, and how many items it has, as a record of the file says it.
#[derive(Clone, Copy)]
pub struct Run<T> {
    pub start: u32,
    pub len: u32,
    of: PhantomData<T>,
}

// A piece of the text store.
pub type TextRun = Run<u8>;

// A piece of the list store.
pub type ListRun = Run<u32>;

impl<T> Run<T> {
    ghost use Rattle.tree.specs.Pieces.{PieceOf};

    pub fn new(start: u32, len: u32) -> Run<T>
        ensures start { result.start ≡ start }
        ensures len { result.len ≡ len }
    {
        Run {
            start,
            len,
            of: PhantomData,
        }
    }

    // This piece of a store's items, or nothing where it does not lie within.
    pub fn of(self, items: &[T]) -> Option<&[T]>
        ensures { PieceOf items.now self.start self.len result }
    {
        let start = self.start as usize;
        items.get(start..start + self.len as usize)
    }
}
