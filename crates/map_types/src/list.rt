//! Lists that contracts see as lists.

ghost use Rattle.std.specs.Prelude.{◌≡◌, ◌==◌, ◌++◌, ◌∷◌, [], length, IfOk, IfSome, OnErr, OnOk};
ghost use Rattle.map_types.specs.Lists.{items_of};

use crate::NoMemory;
use std::alloc::{AllocError, Global};
use std::marker::Model;
use std::sync::Arc;

/// A list that contracts see as its elements.
#[derive(Drop)]
pub struct List<T> {
    items: Items<T>,
}

/// Whose the elements of a list are.
#[derive(Drop)]
pub(crate) enum Items<T> {
    /// The list's own.
    Own(Vec<T>),
    /// Those of equal lists, too.
    Shared(Arc<Vec<T>>),
}

/// Numbers, as of elements.
pub type Numbers = List<u32>;

impl<T> Model for List<T> {
    ghost use Rattle.std.specs.Prelude.{List};
    ghost use Rattle.map_types.specs.Lists.{items_of};

    ghost Value = { List T };

    ghost view = { λ l. items_of l.items };
}

impl<T> List<T> {
    /// The list of a `Vec`. It takes no memory.
    pub fn of(items: Vec<T>) -> List<T>
        ensures { result ≡ items.items }
    {
        List {
            items: Items::Own(items),
        }
    }

    /// The same list once more, where its elements are shared. It takes no memory.
    pub fn again(&self) -> Option<List<T>>
        ensures { IfSome result (λ list. list ≡ self.now) }
    {
        match &self.items {
            Items::Own(_) => None,
            Items::Shared(items) => match Arc::try_clone(items) {
                Ok(items) => Some(List {
                    items: Items::Shared(items),
                }),
                Err(_) => None,
            },
        }
    }

    /// The elements, in order.
    pub fn as_slice(&self) -> &[T]
        ensures { result.now ≡ self.now }
    {
        match &self.items {
            Items::Own(items) => items.as_slice(),
            Items::Shared(items) => items.as_slice(),
        }
    }

    /// How many elements there are.
    pub fn len(&self) -> usize
        ensures { result ≡ length self.now }
    {
        self.as_slice().len()
    }

    /// Whether there is none.
    pub fn is_empty(&self) -> bool
        ensures { result ≡ (length self.now == 0) }
    {
        self.as_slice().is_empty()
    }
}

impl<T: Drop> List<T> {
    /// The same list, so that `again` gives it once more without copies of its elements.
    pub fn share(self, alloc: Global) -> Result<List<T>, NoMemory>
        ensures { IfOk result (λ list. list ≡ self) }
    {
        let List { items } = self;
        let shared = match items {
            Items::Own(items) => Arc::new(alloc, items)?,
            Items::Shared(items) => items,
        };
        Ok(List {
            items: Items::Shared(shared),
        })
    }

    /// Adds an element. A list that is shared, or for which memory isn't found, stays as it is.
    pub fn push(&mut self, item: T) -> Result<(), NoMemory>
        ensures added { OnOk result (self.new ≡ self.old ++ item ∷ []) }
        ensures same { OnErr result (self.new ≡ self.old) }
    {
        match &mut self.items {
            Items::Own(items) => Ok(items.push(item)?),
            Items::Shared(_) => Err(AllocError.into()),
        }
    }
}
