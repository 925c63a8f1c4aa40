//! The items that are watched.

ghost use Rattle.std.specs.Prelude.{◌≡◌, ◌<◌, [], ◌∷◌, ◌++◌, length};
ghost use Rattle.watch_defs.specs.Items.{AreItems, IsItem};

use gpl_watch::Item;
use std::marker::Model;

/// The most items.
pub(crate) const MOST_ITEMS: usize = 8;

/// One to eight items that can be watched. Contracts see their list.
#[derive(Debug, Drop)]
pub struct WatchedItems {
    items: [Item; MOST_ITEMS],
    len: usize,
}

impl Model for WatchedItems {
    ghost use Rattle.std.specs.Prelude.{◌≡◌, ◌≤◌, List, length, take};
    ghost use Rattle.watch_defs.specs.Items.{AreItems};
    ghost use Rattle.watch_defs.specs.declared.item.Item.{Item as OneItem};

    ghost Value = { List OneItem };

    ghost view = { λ i. take i.len i.items };

    ghost invariant = { λ i. (i.len ≤ 8) × (length i.items ≡ 8) × AreItems (take i.len i.items) };
}

impl WatchedItems {
    /// One item.
    pub(crate) fn one(item: Item) -> WatchedItems
        requires { IsItem item }
        ensures { result ≡ item ∷ [] }
    {
        WatchedItems {
            items: [item; MOST_ITEMS],
            len: 1,
        }
    }

    /// Appends an item to fewer than eight.
    pub(crate) fn push(&mut self, item: Item)
        requires room { length self.old < 8 }
        requires item { IsItem item }
        ensures { self.new ≡ self.old ++ item ∷ [] }
    {
        self.items[self.len] = item;
        self.len += 1;
    }

    /// The items, which can be watched.
    pub fn as_slice(&self) -> &[Item]
        ensures items { result.now ≡ self.now }
        ensures are_items { AreItems result.now }
    {
        &self.items[..self.len]
    }
}
