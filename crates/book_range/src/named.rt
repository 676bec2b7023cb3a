//! Whether the branches, tellers, accounts, users and entries that rows name are there.

ghost use Rattle.std.specs.Prelude.{◌↔◌, Contains, IsTrue, map};
ghost use Rattle.keyed_rows.specs.Ordered.{AreDistinct};
ghost use Rattle.bank_books.specs.Keys.{teller_key};
ghost use Rattle.bank_books.specs.Range.{IsBranch, IsEntryOrNone, IsTellerOf, IsUser};
ghost use Rattle.bank_books.specs.WorldLists.{WorldLists};
ghost use Rattle.bank_books.specs.declared.rows.CashLine.{CashLine as ALine};
ghost use Rattle.bank_books.specs.declared.rows.Entry.{Entry as AnEntry};
ghost use Rattle.book_range.specs.Named.{IsEntryNamed, IsLineNamed, IsNamed};
ghost use Rattle.book_sums.specs.Sums.{AreSumsOf};
ghost use Rattle.book_sums.specs.declared.shares.Part.{Part as APart};

use bank_books::World;
use book_sums::{Part, Shares, Sums};
use keyed_rows::{find_row, is_there};

/// What the part of a row in sums names.
#[derive(Clone, Copy)]
enum Named {
    /// The account of an entry, by its group.
    Account,
    /// The teller of an entry, by its group, and the branch, by its number.
    Teller,
    /// The branch of a line, by its group, and the place, by its number.
    Place,
}

/// Whether the branch, account and teller of each entry are there.
pub(crate) fn are_entries_named(world: &World, sums: &Sums) -> bool
    requires distinct { AreDistinct (map teller_key world.now.tellers) }
    requires sums { AreSumsOf world.now sums.now }
    ensures { IsTrue result ↔ ((e : AnEntry) → Contains world.now.entries e → IsEntryNamed world.now e) }
{
    are_named(world, Named::Account, &sums.by_turn)
        && are_named(world, Named::Teller, &sums.by_teller)
}

/// Whether the branch and place of each line are there.
pub(crate) fn are_lines_named(world: &World, sums: &Sums) -> bool
    requires distinct { AreDistinct (map teller_key world.now.tellers) }
    requires sums { AreSumsOf world.now sums.now }
    ensures { IsTrue result ↔ ((l : ALine) → Contains world.now.lines l → IsLineNamed world.now l) }
{
    are_named(world, Named::Place, &sums.by_place)
}

/// Whether the rows that the parts name are there. Parts that name the same stand together, and it is
/// looked for once.
fn are_named(world: &World, named: Named, shares: &Shares) -> bool
    requires { AreDistinct (map teller_key world.now.tellers) }
    ensures { IsTrue result ↔ ((part : APart) → Contains shares.now part → IsNamed world.now named part) }
{
    let parts = shares.parts();
    for index in 0..parts.len() {
        if index > 0 && names_same(named, &parts[index - 1], &parts[index]) {
            continue;
        }
        if !is_named(world, named, &parts[index]) {
            return false;
        }
    }
    true
}

/// Whether two parts are seen to name the same rows.
fn names_same(named: Named, part: &Part, other: &Part) -> bool
    ensures { IsTrue result → (w : WorldLists) → IsNamed w named part.now → IsNamed w named other.now }
{
    part.group == other.group
        && match named {
            Named::Account => true,
            Named::Teller | Named::Place => part.number == other.number,
        }
}

/// Whether the rows that a part names are there.
fn is_named(world: &World, named: Named, part: &Part) -> bool
    requires { AreDistinct (map teller_key world.now.tellers) }
    ensures { IsTrue result ↔ IsNamed world.now named part.now }
{
    match named {
        Named::Account => is_there(world.accounts(), part.group as u128),
        Named::Teller => {
            is_branch(world, part.number) && is_teller_of(world, part.number, part.group)
        }
        Named::Place => {
            is_branch(world, part.group)
                && (part.number == 0 || is_teller_of(world, part.group, part.number))
        }
    }
}

/// Whether a branch of that number is there.
pub(crate) fn is_branch(world: &World, key: u32) -> bool
    ensures { IsTrue result ↔ IsBranch world.now.branches key }
{
    is_there(world.branches(), key as u128)
}

/// Whether a user of that number is there.
pub(crate) fn is_user(world: &World, key: u32) -> bool
    ensures { IsTrue result ↔ IsUser world.now.policy.users key }
{
    is_there(world.policy().users(), key as u128)
}

/// Whether no entry is named, by 0, or one of that number is there in the history of that branch.
pub(crate) fn is_entry_or_none(world: &World, branch: u32, number: u32) -> bool
    ensures { IsTrue result ↔ IsEntryOrNone world.now.entries branch number }
{
    number == 0 || is_there(world.entries(), branch as u128 * (1 << 32) + number as u128)
}

/// Whether a teller of that number is there, and of that branch.
fn is_teller_of(world: &World, branch: u32, key: u32) -> bool
    requires { AreDistinct (map teller_key world.now.tellers) }
    ensures { IsTrue result ↔ IsTellerOf world.now.tellers branch key }
{
    match find_row(world.tellers(), key as u128) {
        Some(row) => row.branch == branch,
        None => false,
    }
}
