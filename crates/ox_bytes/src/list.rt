//! A list of values, of which contracts see no memory.

ghost use Rattle.std.specs.Prelude.{◌≡◌, ◌==◌, ◌∷◌, ◌++◌, [], length, IfOk, OnOk, OnErr};

use crate::memory::Memory;
use std::alloc::Global;
use std::marker::Model;

/// Values in an order. Contracts see the list of them: a list of lists is a list of lists, and not
/// vectors with their memory.
#[derive(Debug, Drop)]
pub struct List<T> {
    items: Vec<T>,
}

impl<T> Model for List<T> {
    ghost use Rattle.std.specs.Prelude.{List as list};

    ghost Value = { list T };

    ghost view = { λ l. l.items.items };
}

impl<T> List<T> {
    /// No values. It takes no memory until one is pushed.
    pub fn new(alloc: Global) -> List<T>
        ensures { result ≡ [] }
    {
        List {
            items: Vec::new(alloc),
        }
    }

    /// The values of the vector, which are not copied.
    pub fn from_vec(items: Vec<T>) -> List<T>
        ensures { result ≡ items.items }
    {
        List { items }
    }

    /// The values as a vector, not copied.
    pub fn into_vec(self) -> Vec<T>
        ensures { result.items ≡ self }
    {
        self.items
    }

    /// The values, in order.
    pub fn as_slice(&self) -> &[T]
        ensures { result.now ≡ self.now }
    {
        self.items.as_slice()
    }

    /// How many there are.
    pub fn len(&self) -> usize
        ensures { result ≡ length self.now }
    {
        self.items.len()
    }

    /// Whether there are none.
    pub fn is_empty(&self) -> bool
        ensures { result ≡ (length self.now == 0) }
    {
        self.items.is_empty()
    }
}

impl<T: Drop> List<T> {
    /// Appends a value. `Memory` where there is none for it: nothing has changed then.
    pub fn push(&mut self, value: T) -> Result<(), Memory>
        ensures ok { OnOk result (self.new ≡ self.old ++ value ∷ []) }
        ensures err { OnErr result (self.new ≡ self.old) }
    {
        self.items.push(value)?;
        Ok(())
    }
}

impl<T: Copy> List<T> {
    /// The same values, copied. `Memory` where there is none for them.
    pub fn copy(&self, alloc: Global) -> Result<List<T>, Memory>
        ensures { IfOk result (λ copy. copy ≡ self.now) }
    {
        Ok(List {
            items: Vec::from_slice(alloc, self.as_slice())?,
        })
    }
}
