//! The range check as a whole: its parts over all rows, in the order in which they are judged.

ghost use Rattle.std.specs.Prelude.{◌≡◌, ◌↔◌, ◌≤◌, Contains, IsTrue, map};
ghost use Rattle.bank_books.specs.Range.{AreOfRows, AreSlipsInRange, IsSlipInRange, HasDistinctKeys, IsBranchInRange, IsEntryInRange, IsInRange, IsLineInRange, IsReleaseInRange};
ghost use Rattle.bank_terms.specs.Limits.{max_version};
ghost use Rattle.book_range.specs.RangeParts.{AreAllInRange, AreCashBooksInRange, AreLedgersInRange, ArePlacesInRange, AreUsersInRange};
ghost use Rattle.book_sums.specs.Records.{AreRecordsOf};
ghost use Rattle.book_sums.specs.Sums.{AreSumsOf};
ghost use Rattle.bank_books.specs.declared.records.BranchRecord.{BranchRecord as ABranch};
ghost use Rattle.bank_books.specs.declared.records.EntryRecord.{EntryRecord as AnEntry};
ghost use Rattle.bank_books.specs.declared.rows.CashLine.{CashLine as ALine};
ghost use Rattle.bank_books.specs.declared.rows.Release.{Release as ARelease};
ghost use Rattle.bank_books.specs.SlipRow.{SlipRow as ASlip};

use crate::beside::stand_beside;
use crate::named::{are_entries_named, are_lines_named};
use crate::numbering::are_releases_numbered;
use crate::range_rows::{Limited, is_branch_in_range, is_slip_in_range};
use bank_books::{BranchRecord, Slip, World};
use bank_terms::MAX_VERSION;
use book_sums::{Kept, Records, Sums};
use keyed_rows::has_distinct_keys;

/// Whether every number is within its limits, no key stands twice, and each row names rows that are
/// there, of the rows and of the numbers kept beside them. It takes no memory.
pub fn is_in_range(world: &World, kept: &Kept, computed: &Records, sums: &Sums) -> bool
    requires computed { AreRecordsOf world.now computed.now }
    requires sums { AreSumsOf world.now sums.now }
    ensures { IsTrue result ↔ IsInRange world.now kept.now }
{
    are_of_rows(world, kept, computed)
        && has_distinct_world_keys(world)
        && are_all_in_range(world, kept, sums)
}

/// Whether every number is within its limits, and each row names rows that are there.
fn are_all_in_range(world: &World, kept: &Kept, sums: &Sums) -> bool
    requires rows { AreOfRows world.now kept.now }
    requires distinct { HasDistinctKeys world.now }
    requires sums { AreSumsOf world.now sums.now }
    ensures { IsTrue result ↔ AreAllInRange world.now kept.now }
{
    are_cash_books_in_range(world, sums)
        && are_places_in_range(world, kept, sums)
        && are_ledgers_in_range(world, kept, sums)
        && are_users_in_range(world)
        && are_slips_in_range(world, sums)
        && is_version_in_range(world)
}

fn are_cash_books_in_range(world: &World, sums: &Sums) -> bool
    requires distinct { HasDistinctKeys world.now }
    requires sums { AreSumsOf world.now sums.now }
    ensures { IsTrue result ↔ AreCashBooksInRange world.now }
{
    are_lines_in_range(world, sums) && are_within_limits(world, world.proofs())
}

fn are_places_in_range(world: &World, kept: &Kept, sums: &Sums) -> bool
    requires distinct { HasDistinctKeys world.now }
    requires days { AreCashBooksInRange world.now }
    requires sums { AreSumsOf world.now sums.now }
    ensures { IsTrue result ↔ ArePlacesInRange world.now kept.now }
{
    are_branches_in_range(world, sums, kept.branches()) && are_within_limits(world, kept.tellers())
}

fn are_ledgers_in_range(world: &World, kept: &Kept, sums: &Sums) -> bool
    requires rows { AreOfRows world.now kept.now }
    requires distinct { HasDistinctKeys world.now }
    requires sums { AreSumsOf world.now sums.now }
    ensures { IsTrue result ↔ AreLedgersInRange world.now kept.now }
{
    are_within_limits(world, kept.accounts()) && are_entries_in_range(world, kept, sums)
}

fn are_users_in_range(world: &World) -> bool
    requires { HasDistinctKeys world.now }
    ensures { IsTrue result ↔ AreUsersInRange world.now }
{
    are_releases_in_range(world) && are_within_limits(world, world.policy().users())
}

fn are_slips_in_range(world: &World, sums: &Sums) -> bool
    requires { AreSumsOf world.now sums.now }
    ensures { IsTrue result ↔ AreSlipsInRange world.now.slips world.now.policy.users }
{
    let slips = world.slips();
    has_distinct_keys(slips) && is_each_slip_in_range(world, sums, slips)
}

fn is_each_slip_in_range(world: &World, sums: &Sums, slips: &[Slip]) -> bool
    requires { AreSumsOf world.now sums.now }
    ensures { IsTrue result ↔ ((s : ASlip) → Contains slips.now s → IsSlipInRange world.now.slips world.now.policy.users s) }
{
    slips.iter().all(|slip| is_slip_in_range(world, sums, slip))
}

fn is_version_in_range(world: &World) -> bool
    ensures { IsTrue result ↔ (world.now.version ≤ max_version) }
{
    world.version() <= MAX_VERSION
}

/// Whether no key stands twice.
fn has_distinct_world_keys(world: &World) -> bool
    ensures { IsTrue result ↔ HasDistinctKeys world.now }
{
    has_distinct_keys(world.branches())
        && has_distinct_keys(world.tellers())
        && has_distinct_keys(world.accounts())
        && has_distinct_keys(world.entries())
        && has_distinct_keys(world.lines())
        && has_distinct_keys(world.proofs())
        && has_distinct_keys(world.releases())
}

fn are_branches_in_range(world: &World, sums: &Sums, branches: &[BranchRecord]) -> bool
    requires distinct { HasDistinctKeys world.now }
    requires days { AreCashBooksInRange world.now }
    requires sums { AreSumsOf world.now sums.now }
    ensures { IsTrue result ↔ ((b : ABranch) → Contains branches.now b → IsBranchInRange world.now.accounts world.now.proofs b) }
{
    branches
        .iter()
        .all(|branch| is_branch_in_range(world, sums, branch))
}

fn are_entries_in_range(world: &World, kept: &Kept, sums: &Sums) -> bool
    requires rows { AreOfRows world.now kept.now }
    requires distinct { HasDistinctKeys world.now }
    requires sums { AreSumsOf world.now sums.now }
    ensures { IsTrue result ↔ ((e : AnEntry) → Contains kept.now.entries e → IsEntryInRange world.now.branches world.now.tellers world.now.accounts world.now.entries world.now.policy.users e) }
{
    are_entries_named(world, sums) && are_within_limits(world, kept.entries())
}

fn are_lines_in_range(world: &World, sums: &Sums) -> bool
    requires distinct { HasDistinctKeys world.now }
    requires sums { AreSumsOf world.now sums.now }
    ensures { IsTrue result ↔ ((l : ALine) → Contains world.now.lines l → IsLineInRange world.now.branches world.now.tellers world.now.policy.users l) }
{
    are_lines_named(world, sums) && are_within_limits(world, world.lines())
}

fn are_releases_in_range(world: &World) -> bool
    requires { HasDistinctKeys world.now }
    ensures { IsTrue result ↔ ((r : ARelease) → Contains world.now.releases r → IsReleaseInRange world.now.branches world.now.releases world.now.policy.users r) }
{
    are_within_limits(world, world.releases()) && are_releases_numbered(world)
}

fn are_within_limits<T: Limited>(world: &World, rows: &[T]) -> bool
    ensures { IsTrue result ↔ ((row : T) → Contains rows.now row → T.has_limits world.now row) }
{
    rows.iter().all(|row| row.is_within_limits(world))
}

/// Whether the kept numbers stand beside the rows of the World, each once and in their order.
fn are_of_rows(world: &World, kept: &Kept, computed: &Records) -> bool
    requires { AreRecordsOf world.now computed.now }
    ensures { IsTrue result ↔ AreOfRows world.now kept.now }
{
    stand_beside(kept.branches(), world.branches())
        && stand_beside(kept.tellers(), world.tellers())
        && stand_beside(kept.accounts(), world.accounts())
        && stand_beside(kept.entries(), world.entries())
        && kept.users() == computed.users.as_slice()
}
