//! A list of at most six items in fixed room.

ghost use Rattle.std.specs.Prelude.{◌≡◌, ◌+◌, ◌<◌, ◌≤◌, [], ◌∷◌, ◌++◌, length};

use bank_terms::{Cdi, Kind};
use std::marker::Model;

/// How many items an operation touches at most.
pub const MAX_TOUCHED: usize = 6;

/// The items that an operation touches, in the order in which its form names them. It has room for
/// six and takes no memory.
#[derive(Debug, Drop)]
pub struct ItemList {
    // The items after the first `len` have no meaning.
    room: [Cdi; MAX_TOUCHED],
    len: usize,
}

impl Model for ItemList {
    ghost use Rattle.std.specs.Prelude.{◌≤◌, List, take};
    ghost use Rattle.bank_terms.specs.declared.item.Cdi.{Cdi as TheItem};

    ghost Value = { List TheItem };

    ghost view = { λ a. take a.len a.room };

    ghost invariant = { λ a. a.len ≤ 6 };
}

impl ItemList {
    /// The items.
    pub fn as_slice(&self) -> &[Cdi]
        ensures items { result.now ≡ self.now }
        ensures at_most_six { length result.now ≤ 6 }
    {
        &self.room[..self.len]
    }

    /// No items.
    pub(crate) fn new() -> ItemList
        ensures { result ≡ [] }
    {
        let none = Cdi {
            kind: Kind::Account,
            key: 0,
        };
        ItemList {
            room: [none; MAX_TOUCHED],
            len: 0,
        }
    }

    /// These items and no others.
    pub(crate) fn of(items: &[Cdi]) -> ItemList
        requires { length items.now ≤ 6 }
        ensures { result ≡ items.now }
    {
        let mut list = ItemList::new();
        list.extend(items);
        list
    }

    /// Appends these items.
    pub(crate) fn extend(&mut self, items: &[Cdi])
        requires { length self.old + length items.now ≤ 6 }
        ensures { self.new ≡ self.old ++ items.now }
    {
        for item in items {
            self.push(*item);
        }
    }

    /// Appends the item.
    fn push(&mut self, item: Cdi)
        requires { length self.old < 6 }
        ensures { self.new ≡ self.old ++ item ∷ [] }
    {
        self.room[self.len] = item;
        self.len += 1;
    }
}
