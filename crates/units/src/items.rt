//! A list that contracts see as a list.
ghost use Rattle.std.specs.Prelude.{◌≡◌, List, [], IfOk};

use crate::memory::NoMemory;
use std::alloc::Global;
use std::marker::Model;

/// The elements of a `Vec`, seen in contracts as the list of them.
#[derive(Debug)]
pub struct Items<T> {
    held: Vec<T>,
}

// Written out, since a derived destructor is proved anew in each crate that lets a value go.
impl<T: Drop> Drop for Items<T> {
    fn drop(self) {
        drop(self.into_vec());
    }
}

impl<T> Model for Items<T> {
    ghost Value = { List T };

    ghost view = { λ s. s.held.items };
}

impl<T> Items<T> {
    /// No elements. Takes no memory.
    pub fn new(alloc: Global) -> Items<T>
        ensures { result ≡ [] }
    {
        Items {
            held: Vec::new(alloc),
        }
    }

    /// The elements of `held`, which is kept. Takes no memory.
    pub fn from_vec(held: Vec<T>) -> Items<T>
        ensures { result ≡ held.items }
    {
        Items { held }
    }

    /// The elements as a `Vec`. Takes no memory.
    pub fn into_vec(self) -> Vec<T>
        ensures { result.items ≡ self }
    {
        let Items { held } = self;
        held
    }

    /// The elements in their order.
    pub fn as_slice(&self) -> &[T]
        ensures { result.now ≡ self.now }
    {
        self.held.as_slice()
    }
}

impl<T: Copy> Items<T> {
    /// A list with equal elements, or `NoMemory`.
    pub fn copy(&self) -> Result<Items<T>, NoMemory>
        ensures { IfOk result (λ r. r ≡ self.now) }
    {
        let alloc: Global = *self.held.allocator();
        let held = Vec::from_slice(alloc, self.held.as_slice())?;
        Ok(Items { held })
    }
}
