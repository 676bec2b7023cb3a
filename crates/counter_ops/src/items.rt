//! The items that operations name, by kind.

ghost use Rattle.std.specs.Prelude.{◌≡◌, unsigned_abs};
ghost use Rattle.counter_ops.specs.Touched.{account_item, teller_item, branch_item, history_item, drawer_item, vault_item, touched_at, touched_by_drawer, touched_by_books};

use crate::item_list::ItemList;
use bank_terms::{Cdi, Kind};
use money::Delta;

/// An account.
pub fn account(key: u32) -> Cdi
    ensures { result ≡ account_item key }
{
    Cdi {
        kind: Kind::Account,
        key,
    }
}

/// A teller.
pub fn teller(key: u32) -> Cdi
    ensures { result ≡ teller_item key }
{
    Cdi {
        kind: Kind::Teller,
        key,
    }
}

/// A branch.
pub fn branch(key: u32) -> Cdi
    ensures { result ≡ branch_item key }
{
    Cdi {
        kind: Kind::Branch,
        key,
    }
}

/// The history of a branch, by the branch's key.
pub fn history(key: u32) -> Cdi
    ensures { result ≡ history_item key }
{
    Cdi {
        kind: Kind::History,
        key,
    }
}

/// The drawer of a teller, by the teller's key.
pub fn drawer(key: u32) -> Cdi
    ensures { result ≡ drawer_item key }
{
    Cdi {
        kind: Kind::Drawer,
        key,
    }
}

/// The vault of a branch, by the branch's key.
pub fn vault(key: u32) -> Cdi
    ensures { result ≡ vault_item key }
{
    Cdi {
        kind: Kind::Vault,
        key,
    }
}

/// What an entry at the teller touches beside its accounts.
pub fn entry_items(teller_key: u32, branch_key: u32) -> [Cdi; 4]
    ensures { result ≡ touched_at teller_key branch_key }
{
    [
        teller(teller_key),
        branch(branch_key),
        history(branch_key),
        drawer(teller_key),
    ]
}

/// What a drawer that is put on or off touches.
pub fn items_of_drawer(teller_key: u32, branch_key: u32) -> ItemList
    ensures { result ≡ touched_by_drawer teller_key branch_key }
{
    ItemList::of(&[
        teller(teller_key),
        branch(branch_key),
        drawer(teller_key),
        vault(branch_key),
    ])
}

/// A branch whose books are looked at.
pub fn items_of_books(branch_key: u32) -> ItemList
    ensures { result ≡ touched_by_books branch_key }
{
    ItemList::of(&[branch(branch_key), history(branch_key), vault(branch_key)])
}

/// The cents of a delta, without a sign.
pub fn size(delta: Delta) -> u32
    ensures { result ≡ unsigned_abs delta }
{
    delta.get().unsigned_abs() as u32
}
