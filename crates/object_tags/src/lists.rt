//! The lists of a module.

ghost use Rattle.std.specs.Prelude.{◌≡◌, [], ◌∷◌, ◌++◌, OnOk, OnErr};

use crate::parts::{Def, Ref};
use object_defs::Piece;
use std::alloc::{AllocError, Global};
use std::marker::Model;

/// A list of a module. Contracts see it as a list.
#[derive(Debug, Drop)]
pub struct Items<T> {
    items: Vec<T>,
}

/// The words of a module, each with its place.
pub type Pieces = Items<Piece>;

/// The names that a module defines.
pub type Defs = Items<Def>;

/// The names that a module needs from other modules.
pub type Refs = Items<Ref>;

impl<T> Model for Items<T> {
    ghost use Rattle.std.specs.Prelude.{List};

    ghost Value = { List T };

    ghost view = { λ list. list.items.items };
}

impl<T> Items<T> {
    /// The empty list.
    pub fn new(alloc: Global) -> Items<T>
        ensures { result ≡ [] }
    {
        Items {
            items: Vec::new(alloc),
        }
    }

    /// The list, in order.
    pub fn as_slice(&self) -> &[T]
        ensures { result.now ≡ self.now }
    {
        self.items.as_slice()
    }
}

impl<T: Drop> Items<T> {
    /// Appends an item. If memory runs out, the list stays as it was.
    pub fn push(&mut self, item: T) -> Result<(), AllocError>
        ensures appended { OnOk result (self.new ≡ self.old ++ item ∷ []) }
        ensures same { OnErr result (self.new ≡ self.old) }
    {
        self.items.push(item)?;
        Ok(())
    }
}
